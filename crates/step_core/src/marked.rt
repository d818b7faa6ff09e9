//! Whether a section is marked 0. The marks of a program stand in the order of its methods, and
//! within one of their pcs.

ghost use Rattle.std.specs.Prelude.{◌≡◌, ◌==◌, ◌≤◌, ◌&&◌, length, drop};
ghost use Rattle.machine_types.specs.Sections.{is_marked, is_same_spot};
ghost use Rattle.step_core.specs.MarkOrder.{AscendFrom, rank, stands_before};

use checked_program::{Checked, SectionMark, Spot};

fn is_same_spot(spot: Spot, other: Spot) -> bool
    ensures { result ≡ is_same_spot spot other }
{
    match spot {
        Spot::Method => match other {
            Spot::Method => true,
            Spot::Block(_) => false,
        },
        Spot::Block(pc) => match other {
            Spot::Method => false,
            Spot::Block(at) => pc == at,
        },
    }
}

/// Whether a mark is that of a section.
fn is_of(mark: &SectionMark, method: u32, spot: Spot) -> bool
    ensures { result ≡ (mark.now.method == method) && is_same_spot mark.now.spot spot }
{
    mark.method == method && is_same_spot(mark.spot, spot)
}

/// The rank of a spot in its method: its own section comes first, then its blocks by their pc.
fn rank(spot: Spot) -> u64
    ensures { result ≡ rank spot }
{
    match spot {
        Spot::Method => 0,
        Spot::Block(pc) => pc as u64 + 1,
    }
}

/// Whether a section of this rank in a method stands before another one.
fn stands_before(method: u32, rank: u64, other: u32, least: u64) -> bool
    ensures { result ≡ stands_before method rank other least }
{
    method < other || (method == other && rank < least)
}

/// How many marks to pass over by halving: all of them are of sections before this one.
fn marks_before(marks: &[SectionMark], method: u32, spot: Spot) -> usize
    requires { AscendFrom 0 0 marks.now }
    ensures some { result ≤ length marks.now }
    ensures before { is_marked (drop result marks.now) method spot
        ≡ is_marked marks.now method spot }
{
    let mut low = 0;
    let mut high = marks.len();
    while low < high {
        let middle = low + (high - low) / 2;
        let mark = marks[middle];
        if stands_before(mark.method, rank(mark.spot), method, rank(spot)) {
            low = middle + 1;
        } else {
            high = middle;
        }
    }
    low
}

/// Whether a section is marked 0 by these marks, which are looked through as far as one behind it.
fn is_marked_by(marks: &[SectionMark], method: u32, spot: Spot) -> bool
    requires { AscendFrom 0 0 marks.now }
    ensures { result ≡ is_marked marks.now method spot }
{
    for mark in marks {
        if stands_before(method, rank(spot), mark.method, rank(mark.spot)) {
            return false;
        }
        if is_of(mark, method, spot) {
            return mark.mark == 0;
        }
    }
    false
}

/// So many marks are looked through without halving them first.
const FEW: usize = 4;

/// Whether a section of a program is marked 0.
pub fn is_marked(p: &Checked, method: u32, spot: Spot) -> bool
    ensures { result ≡ is_marked p.now.marks method spot }
{
    let marks = p.marks().as_slice();
    let first = if marks.len() <= FEW {
        0
    } else {
        marks_before(marks, method, spot)
    };
    is_marked_by(&marks[first..], method, spot)
}
