//! The bytes that classes take while their program is loaded, reckoned by their parts: what is read
//! of them, and what linking, verifying, tagging and marking keep for each besides frames.

use jvm_types::code_attribute::code_of;
use jvm_types::{Attr, ClassFile, Code, Constant, Member, MemberAttr, MethodInfo};

/// A constant, with its meaning.
const CONSTANT_BYTES: usize = 40;

/// A list, besides its items.
const LIST_BYTES: usize = 32;

/// A list of attributes, with room for a few.
const ATTRIBUTES_BYTES: usize = 448;

/// One more attribute.
const ATTRIBUTE_BYTES: usize = 96;

/// A handler row, read and linked.
const ROW_BYTES: usize = 32;

/// A byte of code, which may be one of a switch.
const CODE_BYTES: usize = 3;

/// A field or a method, with its place.
const MEMBER_BYTES: usize = 112;

/// What a method has besides: the lists of its program, typing and tags, and its calls.
const METHOD_BYTES: usize = 640;

/// The type of an argument.
const KIND_BYTES: usize = 4;

/// So many items of so many bytes each, as a list.
fn list_bytes(items: usize, bytes: usize) -> usize {
    items.saturating_mul(bytes).saturating_add(LIST_BYTES)
}

fn constant_bytes(constant: &Constant) -> usize {
    match constant {
        Constant::Utf8(text) => list_bytes(text.len(), 1).saturating_add(CONSTANT_BYTES),
        _ => CONSTANT_BYTES,
    }
}

fn attr_bytes(attr: &Attr) -> usize {
    list_bytes(attr.body.len(), 1).saturating_add(ATTRIBUTE_BYTES)
}

fn attrs_bytes(attrs: &[Attr]) -> usize {
    let mut bytes: usize = if attrs.is_empty() {
        0
    } else {
        ATTRIBUTES_BYTES
    };
    for attr in attrs {
        bytes = bytes.saturating_add(attr_bytes(attr));
    }
    bytes
}

fn code_bytes(code: &Code) -> usize {
    list_bytes(code.bytes.len(), CODE_BYTES)
        .saturating_add(list_bytes(code.rows.len(), ROW_BYTES))
        .saturating_add(attrs_bytes(code.attrs.as_slice()))
}

fn member_attr_bytes(attr: &MemberAttr) -> usize {
    match attr {
        MemberAttr::Code(code) => code_bytes(code),
        MemberAttr::ConstantValue { .. } => ATTRIBUTE_BYTES,
        MemberAttr::Other(attr) => attr_bytes(attr),
    }
}

fn member_bytes(member: &Member) -> usize {
    let mut bytes = MEMBER_BYTES;
    if !member.attrs.is_empty() {
        bytes = bytes.saturating_add(ATTRIBUTES_BYTES);
    }
    for attr in member.attrs.as_slice() {
        bytes = bytes.saturating_add(member_attr_bytes(attr));
    }
    bytes
}

fn constants_bytes(constants: &[Constant]) -> usize {
    let mut bytes: usize = 0;
    for constant in constants {
        bytes = bytes.saturating_add(constant_bytes(constant));
    }
    bytes
}

fn members_bytes(members: &[Member]) -> usize {
    let mut bytes: usize = 0;
    for member in members {
        bytes = bytes.saturating_add(member_bytes(member));
    }
    bytes
}

/// What a class takes, but for its instructions.
pub fn class_bytes(class: &ClassFile) -> usize {
    constants_bytes(class.constants.as_slice())
        .saturating_add(members_bytes(class.fields.as_slice()))
        .saturating_add(members_bytes(class.methods.as_slice()))
        .saturating_add(class.methods.len().saturating_mul(METHOD_BYTES))
        .saturating_add(attrs_bytes(class.attrs.as_slice()))
}

/// What some classes take, but for their instructions.
pub fn classes_bytes(classes: &[ClassFile]) -> usize {
    let mut bytes: usize = 0;
    for class in classes {
        bytes = bytes.saturating_add(class_bytes(class));
    }
    bytes
}

/// How many bytes the code of a method has, where it has code.
fn code_length(method: &Member) -> usize {
    match code_of(method.attrs.as_slice()) {
        Some(code) => code.bytes.len(),
        None => 0,
    }
}

fn class_code_length(class: &ClassFile) -> usize {
    let mut bytes: usize = 0;
    for method in class.methods.as_slice() {
        bytes = bytes.saturating_add(code_length(method));
    }
    bytes
}

/// How many bytes of code some classes have.
pub fn code_lengths(classes: &[ClassFile]) -> usize {
    let mut bytes: usize = 0;
    for class in classes {
        bytes = bytes.saturating_add(class_code_length(class));
    }
    bytes
}

/// What a linked method copies of its name and its types.
fn method_copied_bytes(method: &MethodInfo) -> usize {
    list_bytes(method.args.len(), KIND_BYTES)
        .saturating_add(method.name.len())
        .saturating_add(method.descriptor.len())
}

/// What some linked methods copy.
pub fn copied_bytes(methods: &[MethodInfo]) -> usize {
    let mut bytes: usize = 0;
    for method in methods {
        bytes = bytes.saturating_add(method_copied_bytes(method));
    }
    bytes
}
