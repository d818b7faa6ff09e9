//! Where the fields of the program stand, and what static ones start with (JVMS 2.7, 4.7.2).

ghost use Rattle.std.specs.Prelude.{◌≡◌, ◌+◌, ◌<◌, ◌^◌, ◌++◌, IfOk, OnOk, if◌then◌else◌};
ghost use Rattle.jvm_types.specs.ClassNames.{class_names};
ghost use Rattle.jvm_types.specs.Members.{is_static};
ghost use Rattle.jvm_types.specs.Layout.{first_constant, kept_int, static_start, kind_of};
ghost use Rattle.jvm_types.specs.Layout.{field_info, fields_of, static_count, laid_out_fields};

use jvm_types::fixed_words::{FIRST_CLASS_WORD, OBJECT_HEAD_WORDS};
use jvm_types::flags::is_static;
use jvm_types::{Constant, FieldInfo, Kind, Member, MemberAttr, Rows};
use link_scope::{FileScope, Scope};
use std::alloc::{AllocError, Global};

/// The place of the next instance field of a class, and the word of its next static one.
#[derive(Drop)]
struct Free {
    place: u32,
    word: u32,
}

/// The constant of the first ConstantValue attribute (JVMS 4.7.2).
fn first_constant(attrs: &[MemberAttr]) -> Option<u16>
    ensures { result ≡ first_constant attrs.now }
{
    for attr in attrs {
        if let MemberAttr::ConstantValue { constant, .. } = attr {
            return Some(*constant);
        }
    }
    None
}

/// What a field of a type keeps of an int.
fn kept_int(kind: Kind, value: i32) -> i32
    ensures { result ≡ kept_int kind value }
{
    match kind {
        Kind::Int => value,
        Kind::Bool => (value.cast_unsigned() % 2).cast_signed(),
        Kind::Ref(_) => 0,
    }
}

/// What a static field starts with.
fn static_start(pool: &Rows<Constant>, kind: Kind, field: &Member) -> i32
    ensures { result ≡ static_start pool.now kind field.now }
{
    match first_constant(field.attrs.as_slice()) {
        Some(index) => match pool.get(usize::from(index)) {
            Some(Constant::Integer(value)) => kept_int(kind, *value),
            _ => 0,
        },
        None => 0,
    }
}

/// The type of a field of a file.
fn kind_of(file: &FileScope<'_, '_>, field: &Member) -> Kind
    ensures { result ≡ kind_of (class_names file.now.files) file.now.class.constants field.now }
{
    match file.field_kind(field.descriptor) {
        Some(kind) => kind,
        None => Kind::Int,
    }
}

/// A field of a file at its place.
fn field_info(file: &FileScope<'_, '_>, index: u32, field: &Member) -> FieldInfo
    ensures { result ≡ field_info (class_names file.now.files) file.now.number
        file.now.class.constants index field.now }
{
    let kind = kind_of(file, field);
    let start = if is_static(field.flags) {
        static_start(&file.class().constants, kind, field)
    } else {
        0
    };
    FieldInfo {
        class: file.own_class(),
        flags: field.flags,
        kind,
        index,
        start,
    }
}

/// The place of the next field, which has these flags.
fn take_place(free: &mut Free, flags: u16) -> u32
    requires place { free.old.place < 2 ^ 31 }
    requires word { free.old.word < 2 ^ 31 }
    ensures index { result ≡ (if is_static flags then free.old.word else free.old.place) }
    ensures place { free.new.place
        ≡ (if is_static flags then free.old.place else free.old.place + 1) }
    ensures word { free.new.word ≡ (if is_static flags then free.old.word + 1 else free.old.word) }
{
    if is_static(flags) {
        let word = free.word;
        free.word += 1;
        word
    } else {
        let place = free.place;
        free.place += 1;
        place
    }
}

/// Adds the fields of a file, whose static ones have the words from `word` on. Answers the word
/// behind them.
fn lay_out_class(
    file: &FileScope<'_, '_>,
    word: u32,
    fields: &mut Rows<FieldInfo>,
) -> Result<u32, AllocError>
    requires { word < 2 ^ 30 }
    ensures fields { OnOk result (fields.new ≡ fields.old ++ fields_of (class_names file.now.files)
        file.now.number file.now.class.constants 0 word file.now.class.fields) }
    ensures word { IfOk result (λ next. next ≡ word + static_count file.now.class.fields) }
    ensures few { IfOk result (λ next. next < word + 2 ^ 16) }
{
    let members = file.class().fields.as_slice();
    let mut free = Free { place: 0, word };
    for field in members {
        let index = take_place(&mut free, field.flags);
        fields.push(field_info(file, index, field))?;
    }
    Ok(free.word)
}

/// The fields of all classes, in order of the files.
pub fn lay_out(alloc: Global, scope: &Scope<'_>) -> Result<Rows<FieldInfo>, AllocError>
    ensures { IfOk result (λ fields. fields ≡ laid_out_fields (class_names scope.now) scope.now) }
{
    let mut fields = Rows::new(alloc);
    let mut word = FIRST_CLASS_WORD;
    let files = scope.files().as_slice();
    for (number, class) in files.iter().enumerate() {
        let file = scope.file(number, class);
        word = lay_out_class(&file, word + OBJECT_HEAD_WORDS, &mut fields)?;
    }
    Ok(fields)
}
