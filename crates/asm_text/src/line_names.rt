//! The names of lines, but for those of instructions.

ghost use Rattle.std.specs.Prelude.{◌≡◌, bytes_eq};
ghost use Rattle.asm_text.specs.LineNames.{line_name, line_name_of, name_among};

/// The name of a line that is not that of an instruction.
#[derive(Clone, Copy, Debug, PartialEq, Eq)]
pub enum LineName {
    File,
    Utf8,
    Integer,
    Float,
    Long,
    Double,
    Gap,
    Class,
    Text,
    Field,
    Method,
    InterfaceMethod,
    NameAndType,
    Interface,
    FieldHead,
    MethodHead,
    Attribute,
    InitialValue,
    Code,
    CodeBytes,
    Row,
    End,
}

pub const LINE_NAMES: [LineName; 22] = [
    LineName::File,
    LineName::Utf8,
    LineName::Integer,
    LineName::Float,
    LineName::Long,
    LineName::Double,
    LineName::Gap,
    LineName::Class,
    LineName::Text,
    LineName::Field,
    LineName::Method,
    LineName::InterfaceMethod,
    LineName::NameAndType,
    LineName::Interface,
    LineName::FieldHead,
    LineName::MethodHead,
    LineName::Attribute,
    LineName::InitialValue,
    LineName::Code,
    LineName::CodeBytes,
    LineName::Row,
    LineName::End,
];

fn line_name(name: LineName) -> &'static str
    ensures { result.now ≡ line_name name }
{
    match name {
        LineName::File => "file",
        LineName::Utf8 => "utf8",
        LineName::Integer => "integer",
        LineName::Float => "float",
        LineName::Long => "long",
        LineName::Double => "double",
        LineName::Gap => "gap",
        LineName::Class => "class",
        LineName::Text => "string",
        LineName::Field => "field",
        LineName::Method => "method",
        LineName::InterfaceMethod => "imethod",
        LineName::NameAndType => "nametype",
        LineName::Interface => "interface",
        LineName::FieldHead => "fmember",
        LineName::MethodHead => "mmember",
        LineName::Attribute => "attr",
        LineName::InitialValue => "value",
        LineName::Code => "code",
        LineName::CodeBytes => "bytes",
        LineName::Row => "row",
        LineName::End => "end",
    }
}

pub fn is_same_text(text: &[u8], other: &[u8]) -> bool
    ensures { result ≡ bytes_eq text.now other.now }
{
    text == other
}

fn name_among(names: &[LineName], text: &[u8]) -> Option<LineName>
    ensures { result ≡ name_among names.now text.now }
{
    for name in names {
        if is_same_text(line_name(*name).as_bytes(), text) {
            return Some(*name);
        }
    }
    None
}

/// The name that a text is, or `None` where it is none of these.
pub fn line_name_of(text: &[u8]) -> Option<LineName>
    ensures { result ≡ line_name_of text.now }
{
    name_among(&LINE_NAMES, text)
}
