//! The least set of nodes of a graph that is closed under a rule, in time linear in its edges. It
//! finds the nodes that lead into a set, and those that lead to a cycle.
#![tactic(auto)]

mod walks;

ghost use Rattle.std.specs.Prelude.{◌≡◌, ℕ, suc, ◌+◌, ◌-◌, ◌<◌, ◌≤◌, true, false, slice_index_or};
ghost use Rattle.std.specs.Prelude.{◌==◌, if◌then◌else◌, List, [], ◌∷◌, ◌++◌, length, slice_index};
ghost use Rattle.std.specs.Prelude.{slice_set, OnOk, IfOk, EachIndex, MatchOption};
ghost use Rattle.graph_closure.specs.Walks.{FindsLeading, FindsRecurring};
ghost use Rattle.graph_closure.specs.LeastSet.{IsSpread, IsGraph};
ghost use Rattle.graph_closure.specs.Chains.{IsChained, Going, latest, weight, zeros};

use std::alloc::{AllocError, Global};
pub use walks::{leading, recurring};

/// For each node the last edge to it, and for each edge the one before it to the same node; each as
/// a number plus 1, with 0 for none.
#[derive(Debug, Drop)]
struct Chains {
    last: Vec<u32>,
    before: Vec<u32>,
}

fn chained(alloc: Global, to: &[u32], nodes: usize) -> Result<Chains, AllocError>
    requires few { length to.now < 4294967295 }
    requires ends { EachIndex to.now (λ e. slice_index to.now e < nodes) }
    ensures { IfOk result (λ c. IsChained nodes to.now c.last.items c.before.items) }
{
    let mut last: Vec<u32> = vec![in alloc; 0; nodes]?;
    let mut before: Vec<u32> = Vec::new(alloc);
    for e in 0..to.len() {
        let b = to[e] as usize;
        before.push(last[b])?;
        last[b] = e as u32 + 1;
    }
    Ok(Chains { last, before })
}

/// One of the edges that leave a leads into the set.
fn meet(need: &mut [u32], work: &mut Vec<u32>, a: u32) -> Result<(), AllocError>
    requires { a < length need.old }
    ensures need { OnOk result (need.new ≡ slice_set need.old a (slice_index need.old a - 1)) }
    ensures less { OnOk result (weight work.new.items need.new ≤ weight work.old.items need.old) }
    ensures work { OnOk result (work.new.items
        ≡ (if slice_index need.old a == 1 then work.old.items ++ a ∷ [] else work.old.items)) }
{
    let left = need[a as usize];
    if left == 1 {
        work.push(a)?;
    }
    if left > 0 {
        need[a as usize] = left - 1;
    }
    Ok(())
}

/// The nodes that need no edge.
fn ready(alloc: Global, need: &[u32]) -> Result<Vec<u32>, AllocError>
    requires { length need.now < 4294967296 }
    ensures { IfOk result (λ w. w.items ≡ zeros need.now (length need.now)) }
{
    let mut work: Vec<u32> = Vec::new(alloc);
    for a in 0..need.len() {
        if need[a] == 0 {
            work.push(a as u32)?;
        }
    }
    Ok(work)
}

/// Takes one that waits.
fn next(work: &mut Vec<u32>) -> Option<u32>
    ensures { MatchOption result (work.old.items ≡ [])
        (λ b. work.old.items ≡ work.new.items ++ b ∷ []) }
{
    work.pop()
}

/// Whether b is not done yet; it is then noted as done.
fn begin(done: &mut Vec<bool>, b: u32) -> bool
    requires { b < length done.old.items }
    ensures yes { result ≡ true → (slice_index_or done.old.items b false ≡ false)
        × (done.new.items ≡ slice_set done.old.items b true) }
    ensures not { result ≡ false
        → (slice_index_or done.old.items b false ≡ true) × (done.new.items ≡ done.old.items) }
{
    if done[b as usize] {
        return false;
    }
    done[b as usize] = true;
    true
}

/// Counts the edges that lead to b, which is in the set.
fn release(
    from: &[u32],
    to: &[u32],
    lasts: &[u32],
    befores: &[u32],
    done: &[bool],
    need: &mut [u32],
    work: &mut Vec<u32>,
    b: u32,
) -> Result<(), AllocError>
    requires graph { IsGraph (length need.old) from.now to.now }
    requires chained { IsChained (length need.old) to.now lasts.now befores.now }
    requires inside { b < length need.old }
    requires done { slice_index_or done.now b false ≡ true }
    ensures less { OnOk result (weight work.new.items need.new ≤ weight work.old.items need.old) }
    ensures goes { OnOk result ((start : List ℕ) → length start ≡ length need.old → Going from.now
        to.now start need.old work.old.items done.now b (latest to.now b (length to.now))
        → Going from.now to.now start need.new work.new.items done.now b 0) }
{
    let mut at = lasts[b as usize];
    while at > 0 {
        let e = (at - 1) as usize;
        meet(need, work, from[e])?;
        at = befores[e];
    }
    Ok(())
}

/// Counts for each node its edges into the least closed set. The edge of number e goes from
/// `from[e]` to `to[e]`, and `need` has for each node how many of its edges have to lead into the
/// set. What is left of the need is 0 exactly at the nodes of the set.
pub fn spread(alloc: Global, from: &[u32], to: &[u32], need: &mut [u32]) -> Result<(), AllocError>
    requires graph { IsGraph (length need.old) from.now to.now }
    requires nodes { length need.old < 4294967296 }
    ensures { OnOk result (IsSpread from.now to.now need.old need.new) }
{
    let chains = chained(alloc, to, need.len())?;
    let mut done: Vec<bool> = vec![in alloc; false; need.len()]?;
    let mut work = ready(alloc, need)?;
    while let Some(b) = next(&mut work) {
        if begin(&mut done, b) {
            release(
                from,
                to,
                chains.last.as_slice(),
                chains.before.as_slice(),
                done.as_slice(),
                need,
                &mut work,
                b,
            )?;
        }
    }
    Ok(())
}

/// Where each node outside a set needs one edge, the nodes that lead into the set are found.
pub fn finds_leading()
    ensures { FindsLeading }
{}

/// Where each node needs all its edges, the nodes that lead to a cycle are left.
pub fn finds_recurring()
    ensures { FindsRecurring }
{}
