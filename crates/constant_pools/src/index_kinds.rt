//! What the indices of a constant pool name (JVMS 4.4).

ghost use Rattle.std.specs.Prelude.{◌≡◌, slice_get};
ghost use Rattle.jvm_types.specs.ClassGrammar.{is_wide};
ghost use Rattle.jvm_types.specs.ReadingPool.{names, is_text};

use jvm_types::{Constant, IndexKind, Rows};

/// Whether an index names an entry of this kind.
pub fn names(kind: IndexKind, pool: &Rows<Constant>, index: u16) -> bool
    ensures { result ≡ names kind pool.now index }
{
    match (kind, pool.get(usize::from(index))) {
        (IndexKind::CatchType, _) if index == 0 => true,
        (IndexKind::Utf8, Some(Constant::Utf8(_))) => true,
        (IndexKind::Class | IndexKind::CatchType, Some(Constant::Class(_))) => true,
        (IndexKind::NameAndType, Some(Constant::NameAndType(_, _))) => true,
        (
            IndexKind::Value,
            Some(
                Constant::Integer(_)
                | Constant::Float(_)
                | Constant::Long(_)
                | Constant::Double(_)
                | Constant::Text(_),
            ),
        ) => true,
        _ => false,
    }
}

/// Whether an index names this text.
pub fn is_named(pool: &Rows<Constant>, index: u16, text: &[u8]) -> bool
    ensures { result ≡ is_text text.now (slice_get pool.now index) }
{
    match pool.get(usize::from(index)) {
        Some(Constant::Utf8(found)) => found.as_slice() == text,
        _ => false,
    }
}

/// Whether an entry takes two indices (JVMS 4.4.5).
pub fn is_wide(constant: &Constant) -> bool
    ensures { result ≡ is_wide constant.now }
{
    matches!(constant, Constant::Long(_) | Constant::Double(_))
}
