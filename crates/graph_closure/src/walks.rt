//! Which nodes of a graph lead into a set of nodes, and which to a cycle.

ghost use Rattle.std.specs.Prelude.{◌≡◌, ◌<◌, ◌==◌, true, not, length, map, IfOk, replicate};
ghost use Rattle.graph_closure.specs.LeastSet.{IsGraph};
ghost use Rattle.graph_closure.specs.Walks.{AreDegrees, AreLeading, AreRecurring, need_unless};

use crate::spread;
use std::alloc::{AllocError, Global};

fn need_unless(in_set: bool) -> u32
    ensures { result ≡ need_unless in_set }
{
    if in_set { 0 } else { 1 }
}

/// What each node needs to lead into a set: nothing where it is in it, else one edge.
fn needs_of(alloc: Global, into: &[bool]) -> Result<Vec<u32>, AllocError>
    ensures { IfOk result (λ v. v.items ≡ map need_unless into.now) }
{
    let mut needs = Vec::new(alloc);
    for in_set in into {
        needs.push(need_unless(*in_set))?;
    }
    Ok(needs)
}

fn without_need(alloc: Global, need: &[u32]) -> Result<Vec<bool>, AllocError>
    ensures { IfOk result (λ v. v.items ≡ map (λ n. n == 0) need.now) }
{
    let mut found = Vec::new(alloc);
    for n in need {
        found.push(*n == 0)?;
    }
    Ok(found)
}

fn with_need(alloc: Global, need: &[u32]) -> Result<Vec<bool>, AllocError>
    ensures { IfOk result (λ v. v.items ≡ map (λ n. not (n == 0)) need.now) }
{
    let mut found = Vec::new(alloc);
    for n in need {
        found.push(*n != 0)?;
    }
    Ok(found)
}

fn none(alloc: Global, nodes: usize) -> Result<Vec<u32>, AllocError>
    ensures { IfOk result (λ v. v.items ≡ replicate nodes 0) }
{
    vec![in alloc; 0; nodes]
}

/// How many edges leave each of so many nodes.
fn degrees(alloc: Global, from: &[u32], to: &[u32], nodes: usize) -> Result<Vec<u32>, AllocError>
    requires { IsGraph nodes from.now to.now }
    ensures { IfOk result (λ v. AreDegrees from.now nodes v.items) }
{
    let mut counts = none(alloc, nodes)?;
    for e in 0..from.len() {
        counts[from[e] as usize] += 1;
    }
    Ok(counts)
}

/// Of each node, whether some edges lead from it to a node of the set, or it is itself in the set.
/// The edge of number e goes from `from[e]` to `to[e]`, and `into` has for each node whether it is
/// in the set.
pub fn leading(
    alloc: Global,
    from: &[u32],
    to: &[u32],
    into: &[bool],
) -> Result<Vec<bool>, AllocError>
    requires graph { IsGraph (length into.now) from.now to.now }
    requires nodes { length into.now < 4294967296 }
    ensures { IfOk result (λ v. AreLeading from.now to.now into.now v.items) }
{
    let mut need = needs_of(alloc, into)?;
    spread(alloc, from, to, need.as_mut_slice())?;
    without_need(alloc, need.as_slice())
}

/// Of each of so many nodes, whether it leads to a node that leads back to itself. The edge of
/// number e goes from `from[e]` to `to[e]`.
pub fn recurring(
    alloc: Global,
    from: &[u32],
    to: &[u32],
    nodes: usize,
) -> Result<Vec<bool>, AllocError>
    requires graph { IsGraph nodes from.now to.now }
    requires nodes { nodes < 4294967296 }
    ensures { IfOk result (λ v. AreRecurring from.now to.now nodes v.items) }
{
    let mut need = degrees(alloc, from, to, nodes)?;
    spread(alloc, from, to, need.as_mut_slice())?;
    with_need(alloc, need.as_slice())
}
