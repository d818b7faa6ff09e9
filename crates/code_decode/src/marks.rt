//! The rules on branches and handler rows, by a mark for each pc at which an instruction begins.

ghost use Rattle.std.specs.Prelude.{◌≡◌, ◌≤◌, length};
ghost use Rattle.std.specs.Result.{result_err};
ghost use Rattle.code_decode.specs.Marking.{has_mark, mark_at, all_marked, unmarked_branch};
ghost use Rattle.code_decode.specs.Marking.{marked_row, unmarked_row};

use crate::error::Fault;
use crate::sweep::Branching;
use jvm_types::limits::MOST_COUNTED;
use jvm_types::{Handler, KRule};

fn mark(marks: &[bool], pc: usize) -> bool
    ensures { result ≡ has_mark marks.now pc }
{
    match marks.get(pc) {
        Some(mark) => *mark,
        None => false,
    }
}

fn mark_at(marks: &[bool], to: i64) -> bool
    ensures { result ≡ mark_at marks.now to }
{
    to >= 0 && mark(marks, to.unsigned_abs() as usize)
}

fn all_marked(marks: &[bool], targets: &[i64]) -> bool
    ensures { result ≡ all_marked marks.now targets.now }
{
    for to in targets {
        if !mark_at(marks, *to) {
            return false;
        }
    }
    true
}

/// The first branch that leads to no mark: K3 at its pc.
pub fn check_branches(marks: &[bool], branchings: &[Branching]) -> Result<(), Fault>
    ensures { result_err result ≡ unmarked_branch marks.now branchings.now }
{
    for branching in branchings {
        if !all_marked(marks, branching.targets.as_slice()) {
            return Err((KRule::K3, branching.pc));
        }
    }
    Ok(())
}

fn row_fits(marks: &[bool], size: usize, row: &Handler) -> bool
    ensures { result ≡ marked_row marks.now size row.now }
{
    row.start < row.end
        && mark(marks, usize::from(row.start))
        && (mark(marks, usize::from(row.end)) || usize::from(row.end) == size)
        && mark(marks, usize::from(row.handler))
}

/// The first handler row that does not fit: K4 at its number. The code has `size` bytes.
pub fn check_handlers(marks: &[bool], size: usize, rows: &[Handler]) -> Result<(), Fault>
    requires { length rows.now ≤ MOST_COUNTED }
    ensures { result_err result ≡ unmarked_row marks.now size 0 rows.now }
{
    for (number, row) in rows.iter().enumerate() {
        if !row_fits(marks, size, row) {
            return Err((KRule::K4, number as u32));
        }
    }
    Ok(())
}
