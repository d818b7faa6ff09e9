//! The graph of calls: which method calls which, and how. Node 3 u is the method u as it is called
//! on the section's object, node 3 u + 1 as it is called off it, and node 3 u + 2 as a section on a
//! class calls it, whichever class that is.

ghost use Rattle.std.specs.Prelude.{◌≡◌, ◌*◌, ◌/◌, ◌≤◌, ◌<◌, length, slice_get, OnOk, IfOk};
ghost use Rattle.jvm_types.specs.declared.limits.TheConstants.{MOST_INSTRUCTIONS as most};
ghost use Rattle.guard_analysis.specs.CallGraph.{call_graph, edges_before, mode_at, node_edges};

use crate::calls::call_at;
use checked_program::{Graph, Mode, Tags};
use jvm_types::{MethodInfo, Program, Rows};
use std::alloc::{AllocError, Global};

/// How the method of a node is called, where sections on a class are on this one.
pub fn mode_at(class: u16, a: usize) -> Mode
    ensures { result ≡ mode_at class a }
{
    match a % 3 {
        0 => Mode::OnThis,
        1 => Mode::OffThis,
        _ => Mode::OnClass(class),
    }
}

/// Adds the calls of the method of a node.
fn add_calls(
    p: &Program,
    m: &MethodInfo,
    tags: &Tags,
    a: u32,
    graph: &mut Graph,
) -> Result<(), AllocError>
    requires few { length p.now.methods ≤ most }
    ensures { OnOk result
        (graph.new ≡ edges_before p.now m.now tags.now.frames a graph.old (length m.now.code)) }
{
    for i in 0..m.code.len() {
        graph.add(a, call_at(p, mode_at(0, a as usize), m, tags, i))?;
    }
    Ok(())
}

fn add_node(p: &Program, tags: &Rows<Tags>, a: u32, graph: &mut Graph) -> Result<(), AllocError>
    requires few { length p.now.methods ≤ most }
    ensures { OnOk result (graph.new ≡ node_edges p.now (slice_get p.now.methods (a / 3))
        (slice_get tags.now (a / 3)) a graph.old) }
{
    match p.methods.get(a as usize / 3) {
        Some(m) => match tags.get(a as usize / 3) {
            Some(t) => add_calls(p, m, t, a, graph),
            None => Ok(()),
        },
        None => Ok(()),
    }
}

/// The calls of all methods.
pub fn call_graph(alloc: Global, p: &Program, tags: &Rows<Tags>) -> Result<Graph, AllocError>
    requires few { length p.now.methods ≤ most }
    ensures { IfOk result (λ g. g ≡ call_graph p.now tags.now) }
{
    let mut graph = Graph::new(alloc);
    for a in 0..3 * p.methods.len() {
        add_node(p, tags, a as u32, &mut graph)?;
    }
    Ok(graph)
}
