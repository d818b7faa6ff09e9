//! Lists of a class file, behind their length (JVMS 4.1).

ghost use Rattle.std.specs.Prelude.{ℕ, List, Result};
ghost use Rattle.jvm_types.specs.declared.class_file.Constant.{Constant as Entry};
ghost use Rattle.jvm_types.specs.ReadingSteps.{Fault, many_at, counted_at};
ghost use Rattle.class_reader.specs.Giving.{Gives};

use crate::items::{Stop, read_u2};
use jvm_types::{Constant, Rows};
use std::alloc::Global;

/// How an item of a list is read.
pub trait Step {
    /// An item.
    type Item: Drop;

    /// What reading gives: the item, and the bytes after it.
    ghost item_at: { List Entry → List ℕ → Result (Self.Item × List ℕ) Fault };

    /// The item at the front of the bytes, and the bytes after it.
    fn read<'a>(
        alloc: Global,
        pool: &Rows<Constant>,
        bytes: &'a [u8],
    ) -> Result<(Self::Item, &'a [u8]), Stop>
        ensures { Gives (λ x. (x.0, x.1.now)) result (item_at pool.now bytes.now) };
}

/// So many items, and the bytes after them.
fn read_many<'a, S: Step>(
    alloc: Global,
    pool: &Rows<Constant>,
    count: u16,
    bytes: &'a [u8],
) -> Result<(Rows<S::Item>, &'a [u8]), Stop>
    ensures { Gives (λ x. (x.0, x.1.now)) result (many_at (S.item_at pool.now) count bytes.now) }
{
    let mut items = Rows::new(alloc);
    let mut rest = bytes;
    for _ in 0..count {
        let (item, after) = S::read(alloc, pool, rest)?;
        items.push(item)?;
        rest = after;
    }
    Ok((items, rest))
}

/// The items behind their count, and the bytes after them.
#[tactic(auto, unfolding(jvm_types::specs::ReadingSteps::counted_at))]
pub fn read_list<'a, S: Step>(
    alloc: Global,
    pool: &Rows<Constant>,
    bytes: &'a [u8],
) -> Result<(Rows<S::Item>, &'a [u8]), Stop>
    ensures { Gives (λ x. (x.0, x.1.now)) result (counted_at (S.item_at pool.now) bytes.now) }
{
    let (count, rest) = read_u2(bytes)?;
    read_many::<S>(alloc, pool, count, rest)
}
