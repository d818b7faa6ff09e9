//! The forms that rows have.

ghost use Rattle.std.specs.Prelude.{◌≡◌, length, IfOk};
ghost use Rattle.jvm_types.specs.CodeTable.{no_row, stack_row, load_row, store_row};
ghost use Rattle.code_table.specs.RowForms.{wants};

use jvm_types::{Given, OpRow, Rows, StackMove, VType, Want};
use std::alloc::{AllocError, Global};

/// What is taken from the stack, with the top first.
#[derive(Clone, Copy)]
pub enum Takes {
    Nothing,
    One(Want),
    Two(Want, Want),
    Three(Want, Want, Want),
}

impl Takes {
    /// How many values these are.
    #[inline(always)]
    pub fn count(self) -> u16
        ensures { result ≡ length (wants self) }
    {
        match self {
            Takes::Nothing => 0,
            Takes::One(_) => 1,
            Takes::Two(_, _) => 2,
            Takes::Three(_, _, _) => 3,
        }
    }

    /// What is asked of these values.
    pub(crate) fn wants(self, alloc: Global) -> Result<Rows<Want>, AllocError>
        ensures { IfOk result (λ asked. asked ≡ wants self) }
    {
        match self {
            Takes::Nothing => Ok(Rows::new(alloc)),
            Takes::One(top) => Rows::from_slice(alloc, &[top]),
            Takes::Two(top, second) => Rows::from_slice(alloc, &[top, second]),
            Takes::Three(top, second, third) => Rows::from_slice(alloc, &[top, second, third]),
        }
    }
}

/// The form of a row. Those without a local read and write none.
#[derive(Clone, Copy)]
pub enum RowForm {
    /// Nothing comes in the place of what is taken.
    Leaves(Takes),
    /// A value of the instruction's own comes in its place.
    Makes(Takes, VType),
    /// A local is pushed.
    Loads(u16, Want),
    /// The top of the stack goes to a local.
    Stores(u16, Want),
    /// A local gets an int of the instruction's own.
    Adds(u16),
    /// Values of the stack are moved.
    Moves(StackMove),
    /// By what a constant names.
    Named,
}

/// An int that an instruction makes.
pub const AN_INT: Given = Given::Fresh(VType::Int);

/// The row that takes and leaves nothing.
pub fn no_row(alloc: Global) -> OpRow
    ensures { result ≡ no_row }
{
    OpRow {
        takes: Rows::new(alloc),
        gives: Rows::new(alloc),
        reads: None,
        writes: None,
    }
}

/// The row that reads and writes no local.
pub fn stack_row(alloc: Global, takes: &[Want], gives: &[Given]) -> Result<OpRow, AllocError>
    ensures { IfOk result (λ r. r ≡ stack_row takes.now gives.now) }
{
    Ok(OpRow {
        takes: Rows::from_slice(alloc, takes)?,
        gives: Rows::from_slice(alloc, gives)?,
        reads: None,
        writes: None,
    })
}

/// The row that takes these values, and reads and writes no local.
pub fn taking_row(alloc: Global, takes: Takes, gives: &[Given]) -> Result<OpRow, AllocError>
    ensures { IfOk result (λ r. r ≡ stack_row (wants takes) gives.now) }
{
    Ok(OpRow {
        takes: takes.wants(alloc)?,
        gives: Rows::from_slice(alloc, gives)?,
        reads: None,
        writes: None,
    })
}

/// The row of a load of a local.
pub fn load_row(alloc: Global, i: u16, want: Want) -> Result<OpRow, AllocError>
    ensures { IfOk result (λ r. r ≡ load_row i want) }
{
    Ok(OpRow {
        takes: Rows::new(alloc),
        gives: Rows::from_slice(alloc, &[Given::Local(i)])?,
        reads: Some((i, want)),
        writes: None,
    })
}

/// The row of a store to a local.
pub fn store_row(alloc: Global, i: u16, want: Want) -> Result<OpRow, AllocError>
    ensures { IfOk result (λ r. r ≡ store_row i want) }
{
    Ok(OpRow {
        takes: Rows::from_slice(alloc, &[want])?,
        gives: Rows::new(alloc),
        reads: None,
        writes: Some((i, Given::Taken(0))),
    })
}
