//! What a field or a method allows to whom (JVMS 4.9.1, 5.4.4, 6.5).

ghost use Rattle.std.specs.Prelude.{◌≡◌};
ghost use Rattle.jvm_types.specs.Members.{is_hidden, initializes, field_rule, fits_call, call_rule};

use crate::texts::{is_class_init_name, is_init_name};
use jvm_types::flags::{is_final, is_private, is_static};
use jvm_types::{Call, LRule, Site};
use link_scope::Found;

/// How an instruction uses a field: whether a static one, and whether it writes.
#[derive(Clone, Copy)]
pub struct FieldUse {
    pub of_class: bool,
    pub writes: bool,
}

impl FieldUse {
    pub const GETSTATIC: FieldUse = FieldUse {
        of_class: true,
        writes: false,
    };

    pub const PUTSTATIC: FieldUse = FieldUse {
        of_class: true,
        writes: true,
    };

    pub const GETFIELD: FieldUse = FieldUse {
        of_class: false,
        writes: false,
    };

    pub const PUTFIELD: FieldUse = FieldUse {
        of_class: false,
        writes: true,
    };
}

/// Whether a member is a private one of another class.
fn is_hidden(site: &Site<'_>, found: Found) -> bool
    ensures { result ≡ is_hidden site.now found.class found.flags }
{
    is_private(found.flags) && found.class != site.class
}

/// Whether a site may write final fields of a class: static ones in its `<clinit>`, others in its
/// `<init>`.
fn initializes(site: &Site<'_>, of_class: bool, class: u16) -> bool
    ensures { result ≡ initializes site.now of_class class }
{
    let begins = if of_class {
        is_class_init_name(site.name)
    } else {
        is_init_name(site.name)
    };
    class == site.class && begins
}

/// The rule that refuses the use of a field at a site.
pub fn field_rule(site: &Site<'_>, usage: FieldUse, found: Found) -> Option<LRule>
    ensures { result ≡ field_rule usage.of_class usage.writes site.now found.class found.flags }
{
    if is_static(found.flags) != usage.of_class {
        return Some(LRule::L2);
    }
    if is_hidden(site, found) {
        return Some(LRule::L3);
    }
    let may_write = !is_final(found.flags) || initializes(site, usage.of_class, found.class);
    if usage.writes && !may_write {
        return Some(LRule::L7);
    }
    None
}

/// Whether a call has the kind of its method.
fn fits_call(call: Call, site: &Site<'_>, name: &[u8], found: Found) -> bool
    ensures { result ≡ fits_call call site.now found.class name.now found.flags }
{
    let is_init = is_init_name(name);
    let is_class_init = is_class_init_name(name);
    let of_class = is_static(found.flags);
    match call {
        Call::Virtual => !(of_class || is_init || is_class_init),
        Call::Special => {
            let is_own = is_private(found.flags) && found.class == site.class;
            !(of_class || is_class_init) && (is_init || is_own)
        }
        Call::Static => of_class && !(is_init || is_class_init),
    }
}

/// The rule that refuses a call of a method of this name at a site.
pub fn call_rule(call: Call, site: &Site<'_>, name: &[u8], found: Found) -> Option<LRule>
    ensures { result ≡ call_rule call site.now found.class name.now found.flags }
{
    if !fits_call(call, site, name, found) {
        return Some(LRule::L2);
    }
    if is_hidden(site, found) {
        return Some(LRule::L3);
    }
    None
}
