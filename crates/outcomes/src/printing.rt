//! The numbers that were printed in the states that a search has found.

ghost use Rattle.std.specs.Prelude.{◌≡◌, ◌<◌, ◌++◌, ℕ, ℤ, IfOk, OnOk, List, Some};
ghost use Rattle.std.specs.Prelude.{length, slice_get, true};
ghost use Rattle.std.specs.List.{AllByRecursion};
ghost use Rattle.machine_types.specs.PlainState.{Plain as State};
ghost use Rattle.plain_search.specs.Searched.{IsSearched};
ghost use Rattle.outcomes.specs.Lists.{HasPrinted, IsPrintedIn, IsPrinting};

use crate::reached::{Reached, reached_at};
use checked_program::Checked;
use history_rule::Printed;
use jvm_types::Rows;
use plain_search::Found;
use std::alloc::{AllocError, Global};

/// A number that is printed, and a state where it has been.
#[derive(Drop)]
pub struct Printing {
    pub value: i32,
    pub at: Reached,
}

/// `true`: a number is listed.
fn is_printed(printed: &[Printing], value: i32) -> bool
    ensures { result ≡ true → IsPrintedIn printed.now value }
{
    for x in printed {
        if x.value == value {
            return true;
        }
    }
    false
}

/// A number that has been printed in a state.
fn printing_of(
    alloc: Global,
    p: &Checked,
    found: &Found,
    k: usize,
    value: i32,
) -> Result<Printing, AllocError>
    requires program { p.now ≡ found.now.program }
    requires searched { IsSearched found.now }
    requires place { k < length found.now.states }
    requires printed { (q : State) → slice_get found.now.states k ≡ Some q → HasPrinted q value }
    ensures printing { IfOk result (IsPrinting p.now) }
    ensures value { IfOk result (λ x. x.value ≡ value) }
{
    Ok(Printing {
        value,
        at: reached_at(alloc, p, found, k)?,
    })
}

/// Adds a number that has been printed in a state, where it is not listed.
fn add_printing(
    alloc: Global,
    p: &Checked,
    found: &Found,
    printed: &mut Vec<Printing>,
    k: usize,
    x: &Printed,
) -> Result<(), AllocError>
    requires program { p.now ≡ found.now.program }
    requires searched { IsSearched found.now }
    requires place { k < length found.now.states }
    requires here { (q : State) → slice_get found.now.states k ≡ Some q
        → HasPrinted q x.now.value }
    requires printed { AllByRecursion (IsPrinting p.now) printed.old.items }
    ensures printed { OnOk result (AllByRecursion (IsPrinting p.now) printed.new.items) }
    ensures longer { OnOk result
        ((more : List Printing) × (printed.new.items ≡ printed.old.items ++ more)) }
    ensures there { OnOk result (IsPrintedIn printed.new.items x.now.value) }
{
    if is_printed(printed.as_slice(), x.value()) {
        return Ok(());
    }
    let printing = printing_of(alloc, p, found, k, x.value())?;
    printed.push(printing)?;
    Ok(())
}

/// Adds the numbers that have been printed in a state, and are not listed.
fn add_printings(
    alloc: Global,
    p: &Checked,
    found: &Found,
    printed: &mut Vec<Printing>,
    k: usize,
) -> Result<(), AllocError>
    requires program { p.now ≡ found.now.program }
    requires searched { IsSearched found.now }
    requires place { k < length found.now.states }
    requires printed { AllByRecursion (IsPrinting p.now) printed.old.items }
    ensures printed { OnOk result (AllByRecursion (IsPrinting p.now) printed.new.items) }
    ensures longer { OnOk result
        ((more : List Printing) × (printed.new.items ≡ printed.old.items ++ more)) }
    ensures there { OnOk result ((q : State) (value : ℤ) → slice_get found.now.states k ≡ Some q
        → HasPrinted q value → IsPrintedIn printed.new.items value) }
{
    let prints = found.at(k).prints();
    for i in 0..prints.len() {
        add_printing(alloc, p, found, printed, k, &prints[i])?;
    }
    Ok(())
}

/// The numbers that were printed in the states that were found, each once, as they are found.
fn gather_prints(alloc: Global, p: &Checked, found: &Found) -> Result<Vec<Printing>, AllocError>
    requires program { p.now ≡ found.now.program }
    requires searched { IsSearched found.now }
    ensures printed { IfOk result (λ v. AllByRecursion (IsPrinting p.now) v.items) }
    ensures all { IfOk result (λ v. (k : ℕ) (q : State) (value : ℤ)
        → slice_get found.now.states k ≡ Some q → HasPrinted q value → IsPrintedIn v.items value) }
{
    let mut printed = Vec::new(alloc);
    for k in 0..found.len() {
        add_printings(alloc, p, found, &mut printed, k)?;
    }
    Ok(printed)
}

/// The numbers that were printed in the states that were found, each once, the least first.
pub(crate) fn list_prints(
    alloc: Global,
    p: &Checked,
    found: &Found,
) -> Result<Rows<Printing>, AllocError>
    requires program { p.now ≡ found.now.program }
    requires searched { IsSearched found.now }
    ensures printed { IfOk result (AllByRecursion (IsPrinting p.now)) }
    ensures all { IfOk result (λ printed. (k : ℕ) (q : State) (value : ℤ)
        → slice_get found.now.states k ≡ Some q → HasPrinted q value → IsPrintedIn printed value) }
{
    let mut printed = gather_prints(alloc, p, found)?;
    printed.sort_by_key(|x| x.value)?;
    Ok(Rows::from_vec(printed))
}
