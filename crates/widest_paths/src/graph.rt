//! Graphs whose nodes have levels, with edges that leave ranges of nodes.

ghost use Rattle.std.specs.Prelude.{◌≡◌, ◌<◌, ◌++◌, ◌∷◌, [], length, IfOk, OnOk, slice_index};
ghost use Rattle.std.specs.Prelude.{slice_index_or, slice_set};
ghost use Rattle.widest_paths.specs.WidestPaths.{AddsEdges, AreEmpty, HasNoEdges, IsInFan};

use lists::Rows;
use std::alloc::{AllocError, Global};

/// The edges to one node from those of a range of nodes, from `first` to below `last`, that have
/// more turns than `turn`.
#[derive(Clone, Copy, Debug)]
pub struct Fan {
    pub first: usize,
    pub last: usize,
    pub turn: usize,
}

/// A graph whose nodes have the numbers from 0 on: the level and the turns of each node, and the
/// fans of the edges that lead to it.
#[derive(Debug, Drop)]
pub struct Graph {
    pub levels: Rows<usize>,
    pub turns: Rows<usize>,
    pub into: Vec<Rows<Fan>>,
}

/// The number at a place; 0 where there is none.
pub(crate) fn number_at(numbers: &Rows<usize>, i: usize) -> usize
    ensures { result ≡ slice_index numbers.now i }
{
    if i < numbers.len() {
        numbers.as_slice()[i]
    } else {
        0
    }
}

/// Lists without fans, for so many nodes.
fn no_fans(alloc: Global, nodes: usize) -> Result<Vec<Rows<Fan>>, AllocError>
    ensures nodes { IfOk result (λ v. length v.items ≡ nodes) }
    ensures empty { IfOk result (λ v. AreEmpty v.items) }
{
    let mut into = Vec::with_capacity(alloc, nodes)?;
    for _node in 0..nodes {
        into.push(Rows::new(alloc))?;
    }
    Ok(into)
}

fn push_fan(into: &mut Vec<Rows<Fan>>, to: usize, fan: Fan) -> Result<(), AllocError>
    requires { to < length into.old.items }
    ensures { OnOk result (into.new.items
        ≡ slice_set into.old.items to (slice_index_or into.old.items to [] ++ fan ∷ [])) }
{
    into[to].push(fan)?;
    Ok(())
}

impl Graph {
    /// A graph without edges, which has a node for each level.
    pub fn new(alloc: Global, levels: Rows<usize>, turns: Rows<usize>) -> Result<Self, AllocError>
        ensures levels { IfOk result (λ g. g.levels ≡ levels) }
        ensures turns { IfOk result (λ g. g.turns ≡ turns) }
        ensures nodes { IfOk result (λ g. length g.into.items ≡ length levels) }
        ensures edges { IfOk result HasNoEdges }
    {
        let into = no_fans(alloc, levels.len())?;
        Ok(Graph {
            levels,
            turns,
            into,
        })
    }

    /// Adds the edges of a fan to a node.
    pub fn add(&mut self, to: usize, fan: Fan) -> Result<(), AllocError>
        requires { to < length self.old.into.items }
        ensures { OnOk result
            (AddsEdges self.old self.new (λ i k. (to ≡ k) × IsInFan self.old fan i)) }
    {
        push_fan(&mut self.into, to, fan)
    }
}
