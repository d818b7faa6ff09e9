//! How many instructions a call of a method may begin at the most, where no method is entered twice
//! and no branch goes back.

ghost use Rattle.std.specs.Prelude.{◌≡◌, ◌≤◌, ◌<◌, length, slice_get, slice_index_or, false, IfOk};
ghost use Rattle.std.specs.Prelude.{OnOk};
ghost use Rattle.std.specs.List.{sum_by};
ghost use Rattle.jvm_types.specs.ProgramInvariant.{IsProgram};
ghost use Rattle.jvm_types.specs.declared.limits.TheConstants.{MOST_INSTRUCTIONS as most};
ghost use Rattle.checked_program.specs.Reach.{IsReach};
ghost use Rattle.checked_program.specs.MethodCalls.{among, called_by, calls_before, calls_from};
ghost use Rattle.checked_program.specs.MethodCalls.{method_call, method_calls, only_one};
ghost use Rattle.checked_program.specs.MethodCalls.{size_found, size_if, AreReached};

use crate::call_edges::{Graph, called_method};
use graph_closure::leading;
use jvm_types::{MethodInfo, Program};
use std::alloc::{AllocError, Global};

fn called_by(m: &MethodInfo, i: usize) -> Option<u32>
    ensures { result ≡ called_by (slice_get m.now.code i) (slice_get m.now.targets i) }
{
    match m.code.get(i) {
        Some(insn) => match m.targets.get(i) {
            Some(target) => called_method(&insn.op, *target),
            None => None,
        },
        None => None,
    }
}

/// A call of one of so many methods.
fn among(methods: usize, called: Option<u32>) -> Option<u32>
    ensures { result ≡ among methods called }
{
    match called {
        Some(u) => {
            if (u as usize) < methods {
                Some(u)
            } else {
                None
            }
        }
        None => None,
    }
}

fn add_calls(methods: usize, m: &MethodInfo, a: u32, graph: &mut Graph) -> Result<(), AllocError>
    ensures { OnOk result (graph.new ≡ calls_before methods m.now a graph.old (length m.now.code)) }
{
    for i in 0..m.code.len() {
        graph.add(a, among(methods, called_by(m, i)))?;
    }
    Ok(())
}

fn add_method(p: &Program, a: u32, graph: &mut Graph) -> Result<(), AllocError>
    ensures { OnOk result
        (graph.new ≡ calls_from (length p.now.methods) (slice_get p.now.methods a) a graph.old) }
{
    match p.methods.get(a as usize) {
        Some(m) => add_calls(p.methods.len(), m, a, graph),
        None => Ok(()),
    }
}

/// The calls of all methods, those of instructions that are not reached too.
fn method_calls(alloc: Global, p: &Program) -> Result<Graph, AllocError>
    requires few { length p.now.methods ≤ most }
    ensures { IfOk result (λ g. g ≡ method_calls p.now.methods (length p.now.methods)) }
{
    let mut graph = Graph::new(alloc);
    for a in 0..p.methods.len() {
        add_method(p, a as u32, &mut graph)?;
    }
    Ok(graph)
}

fn only_one(alloc: Global, methods: usize, method: usize) -> Result<Vec<bool>, AllocError>
    requires { method < methods }
    ensures { IfOk result (λ v. v.items ≡ only_one methods method) }
{
    let mut one = vec![in alloc; false; methods]?;
    one[method] = true;
    Ok(one)
}

/// Of each method, whether calls lead to it from this one.
fn reached_methods(alloc: Global, p: &Program, method: u32) -> Result<Vec<bool>, AllocError>
    requires program { IsProgram p.now }
    requires few { length p.now.methods ≤ most }
    requires inside { method < length p.now.methods }
    ensures { IfOk result (λ v. AreReached p.now method v.items) }
{
    let graph = method_calls(alloc, p)?;
    let into = only_one(alloc, p.methods.len(), method as usize)?;
    let found = leading(
        alloc,
        graph.to.as_slice(),
        graph.from.as_slice(),
        into.as_slice(),
    )?;
    Ok(found)
}

fn size_if(p: &Program, found: &[bool], u: usize) -> usize
    ensures { result ≡ size_if (slice_index_or found.now u false) (slice_get p.now.methods u) }
{
    if u < found.len() && found[u] {
        match p.methods.get(u) {
            Some(m) => m.code.len(),
            None => 0,
        }
    } else {
        0
    }
}

/// The instructions of the methods that are found.
fn size_found(p: &Program, found: &[bool]) -> u32
    requires size { sum_by (λ m. length m.code) p.now.methods ≤ most }
    ensures { result ≡ size_found p.now.methods found.now (length p.now.methods) }
{
    let mut total = 0;
    for u in 0..p.methods.len() {
        total += size_if(p, found, u);
    }
    total as u32
}

/// The instructions of a method and of all others that it calls, directly or through calls.
pub(crate) fn reach(alloc: Global, p: &Program, method: u32) -> Result<u32, AllocError>
    requires program { IsProgram p.now }
    requires inside { method < length p.now.methods }
    ensures { IfOk result (IsReach p.now method) }
{
    let found = reached_methods(alloc, p, method)?;
    Ok(size_found(p, found.as_slice()))
}
