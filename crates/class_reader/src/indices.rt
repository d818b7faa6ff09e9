//! Indices of the constant pool (JVMS 4.4).

ghost use Rattle.jvm_types.specs.ReadingPool.{index_at};
ghost use Rattle.class_reader.specs.Giving.{Gives};

use crate::items::{Stop, check, read_u2};
use constant_pools::index_kinds::names;
use jvm_types::{CRule, Constant, IndexKind, Rows};

/// An index that has to name an entry of this kind.
#[tactic(auto, unfolding(jvm_types::specs::ReadingPool::index_at))]
pub fn read_index<'a>(
    kind: IndexKind,
    pool: &Rows<Constant>,
    bytes: &'a [u8],
) -> Result<(u16, &'a [u8]), Stop>
    ensures { Gives (λ x. (x.0, x.1.now)) result (index_at kind pool.now bytes.now) }
{
    let (index, rest) = read_u2(bytes)?;
    check(names(kind, pool, index), CRule::C5, bytes.len())?;
    Ok((index, rest))
}
