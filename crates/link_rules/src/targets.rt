//! What the constant of an instruction or the catch type of a handler row names (JVMS 5.4.3, 6.5).

ghost use Rattle.std.specs.Prelude.{◌≡◌, ℕ, List, Option, is_some, slice_get};
ghost use Rattle.jvm_types.specs.ClassNames.{can_be_made, class_names, named_class, text_at};
ghost use Rattle.jvm_types.specs.Descriptors.{field_kind, method_signature};
ghost use Rattle.jvm_types.specs.Members.{Entry, field_rule, call_rule};
ghost use Rattle.jvm_types.specs.Linked.{scope_of};
ghost use Rattle.jvm_types.specs.Targets.{target_of as named_target, catch_class as caught_class};
ghost use Rattle.jvm_types.specs.Targets.{found_target, member_target, field_target, method_target};
ghost use Rattle.jvm_types.specs.Targets.{loaded_target, new_target};
ghost use Rattle.jvm_types.specs.ClassGrammar.{IsIndex};
ghost use Rattle.jvm_types.specs.declared.index_kind.IndexKind.TheVariants as kinds;
ghost use Rattle.link_scope.specs.Scoping.{IsFound};

use crate::member_rules::{FieldUse, call_rule, field_rule};
use crate::texts::{MemberTexts, member_texts};
use jvm_types::class_numbers::{CLASS_ITSELF, FIRST_FILE_CLASS, OBJECT_CLASS, THROWABLE_CLASS};
use jvm_types::{Call, Constant, LRule, Op, Rows, Site, Target};
use link_scope::{FileScope, Found};

/// What a field that was found is to an instruction.
fn allowed_field(site: &Site<'_>, usage: FieldUse, found: Option<Found>) -> Result<Target, LRule>
    ensures { (name : List ℕ) (entry : Option Entry) → IsFound name found entry
        → result
        ≡ found_target (λ e. field_rule usage.of_class usage.writes site.now e.class e.flags)
        entry }
{
    match found {
        None => Err(LRule::L2),
        Some(found) => match field_rule(site, usage, found) {
            None => Ok(found.target),
            Some(rule) => Err(rule),
        },
    }
}

/// What a method of this name that was found is to a call.
fn allowed_method(
    site: &Site<'_>,
    call: Call,
    name: &[u8],
    found: Option<Found>,
) -> Result<Target, LRule>
    ensures { (entry : Option Entry) → IsFound name.now found entry
        → result ≡ found_target (λ e. call_rule call site.now e.class e.name e.flags) entry }
{
    match found {
        None => Err(LRule::L2),
        Some(found) => match call_rule(call, site, name, found) {
            None => Ok(found.target),
            Some(rule) => Err(rule),
        },
    }
}

/// What the field of these texts is to an instruction.
fn named_field(
    file: &FileScope<'_, '_>,
    site: &Site<'_>,
    usage: FieldUse,
    texts: MemberTexts,
) -> Result<Target, LRule>
    ensures { result
        ≡ member_target (λ e. field_rule usage.of_class usage.writes site.now e.class e.flags)
        (scope_of file.now.files).fields
        (named_class (class_names file.now.files) (text_at file.now.class.constants texts.class))
        (is_some (field_kind (class_names file.now.files)
        (text_at file.now.class.constants texts.descriptor)))
        (text_at file.now.class.constants texts.name)
        (text_at file.now.class.constants texts.descriptor) }
{
    let Some(class) = file.named_class(texts.class) else {
        return Err(LRule::L1);
    };
    if file.field_kind(texts.descriptor).is_none() {
        return Err(LRule::L1);
    }
    let found = file.find_field(class, texts.name, texts.descriptor);
    allowed_field(site, usage, found)
}

/// What the method of these texts is to a call.
fn named_method(
    file: &FileScope<'_, '_>,
    site: &Site<'_>,
    call: Call,
    texts: MemberTexts,
) -> Result<Target, LRule>
    ensures { result
        ≡ member_target (λ e. call_rule call site.now e.class e.name e.flags)
        (scope_of file.now.files).methods
        (named_class (class_names file.now.files) (text_at file.now.class.constants texts.class))
        (is_some (method_signature (class_names file.now.files)
        (text_at file.now.class.constants texts.descriptor)))
        (text_at file.now.class.constants texts.name)
        (text_at file.now.class.constants texts.descriptor) }
{
    let Some(class) = file.named_class(texts.class) else {
        return Err(LRule::L1);
    };
    if !file.is_method_descriptor(texts.descriptor) {
        return Err(LRule::L1);
    }
    let found = file.find_method(class, texts.name, texts.descriptor);
    allowed_method(site, call, file.text(texts.name), found)
}

/// What a field constant names to an instruction.
#[tactic(auto, using(crate::proofs::Files::field_class, crate::proofs::Files::field_member))]
fn field_target(
    file: &FileScope<'_, '_>,
    site: &Site<'_>,
    usage: FieldUse,
    constant: u16,
) -> Result<Target, LRule>
    ensures { result ≡ field_target (scope_of file.now.files) site.now file.now.class.constants
        usage.of_class usage.writes (slice_get file.now.class.constants constant) }
{
    let pool = &file.class().constants;
    match pool.get(usize::from(constant)) {
        Some(Constant::Field(class, member)) => {
            let texts = member_texts(pool, *class, *member);
            named_field(file, site, usage, texts)
        }
        _ => Err(LRule::L2),
    }
}

/// What a method constant names to a call.
#[tactic(auto, using(crate::proofs::Files::method_class, crate::proofs::Files::method_member))]
fn method_target(
    file: &FileScope<'_, '_>,
    site: &Site<'_>,
    call: Call,
    constant: u16,
) -> Result<Target, LRule>
    ensures { result ≡ method_target (scope_of file.now.files) site.now file.now.class.constants
        call (slice_get file.now.class.constants constant) }
{
    let pool = &file.class().constants;
    match pool.get(usize::from(constant)) {
        Some(Constant::Method(class, member)) => {
            let texts = member_texts(pool, *class, *member);
            named_method(file, site, call, texts)
        }
        _ => Err(LRule::L2),
    }
}

/// What a constant is to `ldc`: only an int can be loaded.
fn loaded_target(pool: &Rows<Constant>, constant: u16) -> Result<Target, LRule>
    ensures { result ≡ loaded_target (slice_get pool.now constant) }
{
    match pool.get(usize::from(constant)) {
        Some(Constant::Integer(value)) => Ok(Target::Value(*value)),
        Some(
            Constant::Float(_)
            | Constant::Long(_)
            | Constant::Double(_)
            | Constant::Text(_)
            | Constant::Class(_),
        ) => Err(LRule::L1),
        _ => Err(LRule::L2),
    }
}

/// Whether a `new` may name the class: one of the program, `Object` or a throwable (JVMS 6.5).
fn can_be_made(class: u16) -> bool
    ensures { result ≡ can_be_made class }
{
    let is_throwable = THROWABLE_CLASS <= class && class < CLASS_ITSELF;
    class == OBJECT_CLASS || is_throwable || FIRST_FILE_CLASS <= class
}

/// What a constant is to `new`.
fn new_target(file: &FileScope<'_, '_>, constant: u16) -> Result<Target, LRule>
    ensures { result ≡ new_target (scope_of file.now.files) file.now.class.constants
        (slice_get file.now.class.constants constant) }
{
    match file.class().constants.get(usize::from(constant)) {
        Some(Constant::Class(name)) => {
            let class = file.named_class(*name).ok_or(LRule::L1)?;
            if can_be_made(class) {
                Ok(Target::Class(class))
            } else {
                Err(LRule::L2)
            }
        }
        _ => Err(LRule::L2),
    }
}

/// What the constant of an instruction of a file names, or the first rule of L1, L2, L3 and L7 that
/// refuses it.
pub fn target_of(file: &FileScope<'_, '_>, site: &Site<'_>, op: &Op) -> Result<Target, LRule>
    ensures { result
        ≡ named_target (scope_of file.now.files) site.now file.now.class.constants op.now }
{
    match op {
        Op::Ldc(index) | Op::LdcW(index) => loaded_target(&file.class().constants, *index),
        Op::Getstatic(index) => field_target(file, site, FieldUse::GETSTATIC, *index),
        Op::Putstatic(index) => field_target(file, site, FieldUse::PUTSTATIC, *index),
        Op::Getfield(index) => field_target(file, site, FieldUse::GETFIELD, *index),
        Op::Putfield(index) => field_target(file, site, FieldUse::PUTFIELD, *index),
        Op::Invokevirtual(index) => method_target(file, site, Call::Virtual, *index),
        Op::Invokespecial(index) => method_target(file, site, Call::Special, *index),
        Op::Invokestatic(index) => method_target(file, site, Call::Static, *index),
        Op::New(index) => new_target(file, *index),
        _ => Ok(Target::Nothing),
    }
}

/// The class that a handler row catches, 0 for every one (JVMS 4.7.3); L1 where there is no such
/// class.
pub fn catch_class(file: &FileScope<'_, '_>, catch_type: u16) -> Result<u16, LRule>
    requires { IsIndex kinds.CatchType file.now.class.constants catch_type }
    ensures { result ≡ caught_class (scope_of file.now.files) file.now.class.constants catch_type }
{
    if catch_type == 0 {
        return Ok(0);
    }
    match file.class().constants.get(usize::from(catch_type)) {
        Some(Constant::Class(name)) => file.class_number(*name).ok_or(LRule::L1),
        _ => unreachable!(),
    }
}
