//! Graphs of calls, by their edges, and what an instruction calls.

ghost use Rattle.std.specs.Prelude.{◌≡◌, OnOk};
ghost use Rattle.checked_program.specs.CallEdges.{no_edges, with_edge};
ghost use Rattle.checked_program.specs.Marks.{called_method};

use jvm_types::{Op, Rows, Target};
use std::alloc::{AllocError, Global};

/// Edges by their numbers: that of number e goes from `from[e]` to `to[e]`.
#[derive(Debug, Drop)]
pub struct Graph {
    pub from: Rows<u32>,
    pub to: Rows<u32>,
}

impl Graph {
    /// A graph without edges.
    pub fn new(alloc: Global) -> Graph
        ensures { result ≡ no_edges }
    {
        Graph {
            from: Rows::new(alloc),
            to: Rows::new(alloc),
        }
    }

    /// Adds the edge from a node to the one that it calls, where it calls one.
    pub fn add(&mut self, a: u32, called: Option<u32>) -> Result<(), AllocError>
        ensures { OnOk result (self.new ≡ with_edge a self.old called) }
    {
        match called {
            Some(b) => {
                self.from.push(a)?;
                self.to.push(b)?;
                Ok(())
            }
            None => Ok(()),
        }
    }
}

/// The number of the method of the program that an instruction with this target calls (JVMS 6.5,
/// the invoke instructions).
pub fn called_method(op: &Op, target: Target) -> Option<u32>
    ensures { result ≡ called_method op.now target }
{
    match target {
        Target::Method(u) => match op {
            Op::Invokevirtual(_) => Some(u),
            Op::Invokespecial(_) => Some(u),
            Op::Invokestatic(_) => Some(u),
            _ => None,
        },
        _ => None,
    }
}
