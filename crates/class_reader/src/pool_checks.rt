//! Reading the constant pool, whose own indices are looked at once all of it was read (JVMS 4.4).

ghost use Rattle.std.specs.Prelude.{◌≡◌, length};
ghost use Rattle.jvm_types.specs.Spelling.{constant};
ghost use Rattle.jvm_types.specs.ReadingPool.{both_wanted, entry_wanted, entries_wanted, pool_at};
ghost use Rattle.class_reader.specs.Giving.{Gives};

use crate::items::{Stop, check, read_u2};
use crate::pool_entries::read_entries;
use constant_pools::index_kinds::{is_wide, names};
use jvm_types::{CRule, Constant, IndexKind, Rows};
use std::alloc::Global;

/// How many bytes an entry takes in a file (JVMS 4.4).
fn spelled_len(entry: &Constant) -> usize
    ensures { result ≡ length (constant entry.now) }
{
    match entry {
        Constant::Gap => 0,
        Constant::Utf8(text) => 3 + text.as_slice().len(),
        Constant::Class(_) | Constant::Text(_) => 3,
        Constant::Integer(_)
        | Constant::Float(_)
        | Constant::Field(..)
        | Constant::Method(..)
        | Constant::InterfaceMethod(..)
        | Constant::NameAndType(..) => 5,
        Constant::Long(_) | Constant::Double(_) => 9,
    }
}

/// Looks at the two indices of an entry, which stand one and three bytes behind its tag. From the
/// tag on `left` bytes are left, which are more than that.
#[tactic(auto, unfolding(jvm_types::specs::ReadingPool::both_wanted))]
fn check_both(
    kinds: (IndexKind, IndexKind),
    pool: &Rows<Constant>,
    indices: (u16, u16),
    left: usize,
) -> Result<(), Stop>
    ensures { Gives (λ x. x) result
        (both_wanted kinds.0 kinds.1 pool.now indices.0 indices.1 left) }
{
    check(
        names(kinds.0, pool, indices.0),
        CRule::C5,
        left.saturating_sub(1),
    )?;
    check(
        names(kinds.1, pool, indices.1),
        CRule::C5,
        left.saturating_sub(3),
    )
}

/// Looks at the indices of an entry, and that no Long or Double is last. From its tag on `left`
/// bytes are left, the entry's own among them.
#[tactic(auto, unfolding(jvm_types::specs::ReadingPool::entry_wanted))]
fn check_entry(
    pool: &Rows<Constant>,
    entry: &Constant,
    is_last: bool,
    left: usize,
) -> Result<(), Stop>
    ensures { Gives (λ x. x) result (entry_wanted pool.now entry.now is_last left) }
{
    match entry {
        Constant::Class(index) | Constant::Text(index) => {
            let is_met = names(IndexKind::Utf8, pool, *index);
            check(is_met, CRule::C5, left.saturating_sub(1))
        }
        Constant::Field(class, member)
        | Constant::Method(class, member)
        | Constant::InterfaceMethod(class, member) => {
            let kinds = (IndexKind::Class, IndexKind::NameAndType);
            check_both(kinds, pool, (*class, *member), left)
        }
        Constant::NameAndType(name, descriptor) => {
            let kinds = (IndexKind::Utf8, IndexKind::Utf8);
            check_both(kinds, pool, (*name, *descriptor), left)
        }
        _ => check(!(is_wide(entry) && is_last), CRule::C5, left),
    }
}

/// Looks at the entries one after another. From the first on `left` bytes are left.
fn check_entries(pool: &Rows<Constant>, left: usize) -> Result<(), Stop>
    ensures { Gives (λ x. x) result (entries_wanted pool.now pool.now left) }
{
    let mut left = left;
    for (i, entry) in pool.as_slice().iter().enumerate() {
        check_entry(pool, entry, i + 1 == pool.len(), left)?;
        left = left.saturating_sub(spelled_len(entry));
    }
    Ok(())
}

/// The pool, with an entry for each index.
#[tactic(auto, unfolding(jvm_types::specs::ReadingPool::pool_at))]
pub fn read_constants(alloc: Global, bytes: &[u8]) -> Result<(Rows<Constant>, &[u8]), Stop>
    ensures { Gives (λ x. (x.0, x.1.now)) result (pool_at bytes.now) }
{
    let (count, rest) = read_u2(bytes)?;
    let (pool, after) = read_entries(alloc, count, rest)?;
    check_entries(&pool, rest.len())?;
    Ok((pool, after))
}
