//! The Code attribute of a method (JVMS 4.7.3).

ghost use Rattle.std.specs.Prelude.{◌≡◌, [], MatchOption};
ghost use Rattle.jvm_types.specs.ClassGrammar.{codes_of};
ghost use Rattle.jvm_types.specs.Linked.{no_code, code_of};

use crate::class_file::{Code, MemberAttr};

/// The first Code among some attributes; the only one among those of a method of a class that was
/// read.
pub fn code_of(attrs: &[MemberAttr]) -> Option<&Code>
    ensures { MatchOption result ((codes_of attrs.now ≡ []) × (code_of attrs.now ≡ no_code))
        (λ code. code.now ≡ code_of attrs.now) }
{
    for attr in attrs {
        if let MemberAttr::Code(code) = attr {
            return Some(code);
        }
    }
    None
}
