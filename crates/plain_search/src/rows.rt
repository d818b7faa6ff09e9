//! The rows that were found, each state once.

ghost use Rattle.std.specs.Prelude.{◌≡◌, ◌++◌, ◌∷◌, [], true, MatchOption, OnOk};
ghost use Rattle.std.specs.List.{AllByRecursion};
ghost use Rattle.checked_program.specs.MarkedProgram.{MarkedProgram};
ghost use Rattle.plain_search.specs.Rows.{AreStatesIn, IsLonger, IsSearchRow, IsStateIn};

use crate::numbers::number_of;
use crate::row::Row;
use checked_program::Checked;
use history_rule::Plain;
use std::alloc::AllocError;

/// A place of the table: of a state that is found there, or where it may be put.
#[derive(Clone, Copy)]
struct TableSlot {
    at: usize,
    is_found: bool,
}

/// An entry of the table: the number of a row, counted from 1, below the upper half of the number
/// of its state.
fn entry_of(row: u64, state: u64) -> u64 {
    (state & 0xffff_ffff_0000_0000) | row
}

/// The number of the row of an entry.
fn row_of(entry: u64) -> u64 {
    entry & 0xffff_ffff
}

/// Whether an entry may be of a state, by the number of that.
fn may_be_of(entry: u64, state: u64) -> bool {
    entry >> 32 == state >> 32
}

/// Whether a row, by its number counted from 1, has this state.
fn is_state_of(rows: &[Row], number: u64, q: &Plain) -> bool
    ensures { result ≡ true → IsStateIn rows.now q.now.state }
{
    if number == 0 {
        return false;
    }
    match rows.get((number - 1) as usize) {
        Some(row) => row.plain.is_same(q),
        None => false,
    }
}

/// The place in the table of a state, whose number is `state`.
fn place_of(rows: &[Row], table: &[u64], state: u64, q: &Plain) -> TableSlot
    ensures { result.is_found ≡ true → IsStateIn rows.now q.now.state }
{
    let mut at = 0;
    if table.len() > 0 {
        at = (state % table.len() as u64) as usize;
    }
    for _ in 0..table.len() {
        if at >= table.len() {
            at = 0;
        }
        let entry = table[at];
        if entry == 0 {
            return TableSlot {
                at,
                is_found: false,
            };
        }
        if may_be_of(entry, state) && is_state_of(rows, row_of(entry), q) {
            return TableSlot { at, is_found: true };
        }
        at += 1;
    }
    TableSlot {
        at: table.len(),
        is_found: false,
    }
}

/// Adds a row whose state no other has.
#[tactic(auto, using(crate::proofs::RowLists::same_longer, crate::proofs::RowLists::longer_by))]
pub(crate) fn add(rows: &mut Vec<Row>, table: &mut [u64], row: Row) -> Result<(), AllocError>
    ensures there { OnOk result (IsStateIn rows.new.items row.plain.state) }
    ensures longer { (c : MarkedProgram) → IsSearchRow c row
        → IsLonger (IsSearchRow c) rows.old.items rows.new.items }
{
    let state = number_of(&row.plain);
    let place = place_of(rows.as_slice(), table, state, &row.plain);
    if place.is_found {
        return Ok(());
    }
    let entry = entry_of(rows.len() as u64 + 1, state);
    rows.push(row)?;
    if place.at < table.len() {
        table[place.at] = entry;
    }
    Ok(())
}

/// Takes the last one.
fn take_last(rows: &mut Vec<Row>) -> Option<Row>
    ensures { MatchOption result (rows.old.items ≡ [])
        (λ row. rows.old.items ≡ rows.new.items ++ row ∷ []) }
{
    rows.pop()
}

/// Adds those rows whose state no other has.
pub(crate) fn add_all(
    p: &Checked,
    rows: &mut Vec<Row>,
    table: &mut [u64],
    more: Vec<Row>,
) -> Result<(), AllocError>
    requires { AllByRecursion (IsSearchRow p.now) more.items }
    ensures there { OnOk result (AreStatesIn rows.new.items more.items) }
    ensures longer { IsLonger (IsSearchRow p.now) rows.old.items rows.new.items }
{
    let mut left = more;
    while let Some(row) = take_last(&mut left) {
        add(rows, table, row)?;
    }
    Ok(())
}
