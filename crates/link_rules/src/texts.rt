//! Constants and their texts (JVMS 4.4), and the names of methods that have a meaning of their own
//! (JVMS 2.9).

ghost use Rattle.std.specs.Prelude.{◌≡◌, bytes_eq, slice_get};
ghost use Rattle.jvm_types.specs.ClassNames.{text_at, class_text_at};
ghost use Rattle.jvm_types.specs.Pool.{NamesClass, NamesNameAndType};
ghost use Rattle.jvm_types.specs.Members.{is_init_name, is_class_init_name};
ghost use Rattle.jvm_types.specs.Targets.{member_name, member_descriptor};

use jvm_types::{Constant, Rows};

/// The indices of the texts by which a constant names a member.
#[derive(Clone, Copy)]
pub struct MemberTexts {
    pub class: u16,
    pub name: u16,
    pub descriptor: u16,
}

/// The index of the name of a class constant.
fn class_text(pool: &Rows<Constant>, class: u16) -> u16
    requires { NamesClass pool.now class }
    ensures { text_at pool.now result ≡ class_text_at pool.now class }
{
    match pool.get(usize::from(class)) {
        Some(Constant::Class(name)) => *name,
        _ => unreachable!(),
    }
}

/// The texts of the member that a class and a name and type name.
pub fn member_texts(pool: &Rows<Constant>, class: u16, member: u16) -> MemberTexts
    requires class { NamesClass pool.now class }
    requires member { NamesNameAndType pool.now member }
    ensures class { text_at pool.now result.class ≡ class_text_at pool.now class }
    ensures name { text_at pool.now result.name ≡ member_name pool.now (slice_get pool.now member) }
    ensures descriptor { text_at pool.now result.descriptor
        ≡ member_descriptor pool.now (slice_get pool.now member) }
{
    let class = class_text(pool, class);
    match pool.get(usize::from(member)) {
        Some(Constant::NameAndType(name, descriptor)) => MemberTexts {
            class,
            name: *name,
            descriptor: *descriptor,
        },
        _ => unreachable!(),
    }
}

/// Whether two texts are the same, byte by byte.
pub fn is_same_text(text: &[u8], other: &[u8]) -> bool
    ensures { result ≡ bytes_eq text.now other.now }
{
    text == other
}

/// Whether a method of this name makes an object.
pub fn is_init_name(name: &[u8]) -> bool
    ensures { result ≡ is_init_name name.now }
{
    is_same_text(name, b"<init>")
}

/// Whether a method of this name begins a class.
pub fn is_class_init_name(name: &[u8]) -> bool
    ensures { result ≡ is_class_init_name name.now }
{
    is_same_text(name, b"<clinit>")
}
