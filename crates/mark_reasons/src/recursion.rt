//! The walk from a section to a method that calls itself.

ghost use Rattle.std.specs.Prelude.{◌≡◌, ◌<◌, ◌≤◌, ◌*◌, ◌/◌, Some, true, false, length, map};
ghost use Rattle.std.specs.Prelude.{slice_get, slice_index, slice_index_or, replicate, IfOk};
ghost use Rattle.jvm_types.specs.ProgramInvariant.{IsProgram};
ghost use Rattle.jvm_types.specs.declared.limits.TheConstants.{MOST_INSTRUCTIONS as most};
ghost use Rattle.checked_program.specs.TaggedCode.{tagged_by};
ghost use Rattle.checked_program.specs.Marks.{Calls};
ghost use Rattle.checked_program.specs.Sections.{IsOwn};
ghost use Rattle.graph_closure.specs.Walks.{AreRecurring};
ghost use Rattle.guard_analysis.specs.CallGraph.{call_graph, mode_at};
ghost use Rattle.mark_reasons.specs.Firsts.{IsFirst};
ghost use Rattle.mark_reasons.specs.Reasons.{own_callee, marked_section, ComesBack};
ghost use Rattle.mark_reasons.specs.Searches.{callee_at, calls_of, node_call, turns, IsFirstTurn};

use crate::reason::Site;
use crate::search::site_at;
use checked_program::{Mode, SectionMark, Tags};
use guard_analysis::call_graph::mode_at;
use guard_analysis::calls::call_at;
use guard_analysis::flag_at;
use guard_analysis::marking::section_mode;
use jvm_types::{MethodInfo, Program, Rows};
use std::alloc::{AllocError, Global};

/// A way that comes back to the method of its instruction of that number.
#[derive(Debug, Drop)]
pub struct Round {
    pub way: Rows<Site>,
    pub again: usize,
}

/// Whether a called node leads to a cycle.
pub fn turns(recurs: &[bool], called: Option<u32>) -> bool
    ensures { result ≡ turns recurs.now called }
{
    match called {
        Some(node) => flag_at(recurs, node as usize),
        None => false,
    }
}

/// The first instruction of a method, called so, that calls a node which leads to a cycle.
fn first_turn(p: &Program, recurs: &[bool], m: &MethodInfo, t: &Tags, mode: Mode) -> Option<usize>
    requires { length p.now.methods ≤ most }
    ensures { IsFirst (λ i. turns recurs.now (node_call p.now (Some m.now) (Some t.now) mode i))
        (length m.now.code) result }
{
    for i in 0..m.code.len() {
        if turns(recurs, call_at(p, mode, m, t, i)) {
            return Some(i);
        }
    }
    None
}

/// The same of the method of a node.
fn node_turn(
    p: &Program,
    recurs: &[bool],
    tags: &Rows<Tags>,
    class: u16,
    node: u32,
) -> Option<usize>
    requires { length p.now.methods ≤ most }
    ensures { IsFirstTurn p.now recurs.now (slice_get p.now.methods (node / 3))
        (slice_get tags.now (node / 3)) (mode_at class node) result }
{
    let place = node as usize / 3;
    match p.methods.get(place) {
        Some(m) => match tags.get(place) {
            Some(t) => first_turn(p, recurs, m, t, mode_at(class, node as usize)),
            None => None,
        },
        None => None,
    }
}

/// What the instruction of a number calls in the method of a node.
fn called_at(p: &Program, tags: &Rows<Tags>, class: u16, node: u32, i: usize) -> Option<u32>
    requires { length p.now.methods ≤ most }
    ensures { result ≡ node_call p.now (slice_get p.now.methods (node / 3))
        (slice_get tags.now (node / 3)) (mode_at class node) i }
{
    let place = node as usize / 3;
    match p.methods.get(place) {
        Some(m) => match tags.get(place) {
            Some(t) => call_at(p, mode_at(class, node as usize), m, t, i),
            None => None,
        },
        None => None,
    }
}

fn no_places(alloc: Global, nodes: usize) -> Result<Rows<usize>, AllocError>
    ensures { IfOk result (λ places. places ≡ replicate nodes 0) }
{
    Ok(Rows::from_vec(vec![in alloc; 0; nodes]?))
}

fn place_of(places: &Rows<usize>, node: u32) -> usize
    requires { node < length places.now }
    ensures { result ≡ slice_index places.now node }
{
    match places.get(node as usize) {
        Some(place) => *place,
        None => unreachable!(),
    }
}

/// The way from an own instruction of the section of a mark, which calls a node that leads to a
/// cycle, on along the first such calls, until it comes back to a method.
pub fn come_back(
    alloc: Global,
    p: &Program,
    tags: &Rows<Tags>,
    recurs: &[bool],
    mark: SectionMark,
    m: &MethodInfo,
    at: usize,
    first: u32,
) -> Result<Round, AllocError>
    requires program { IsProgram p.now }
    requires few { length p.now.methods ≤ most }
    requires recurs { AreRecurring (call_graph p.now tags.now).from (call_graph p.now tags.now).to
        (3 * length p.now.methods) recurs.now }
    requires there { slice_get p.now.methods mark.method ≡ Some m.now }
    requires own { IsOwn p.now (tagged_by tags.now) mark.method mark.spot at }
    requires calls { Calls p.now (tagged_by tags.now) (own_callee p.now (marked_section mark)) at
        (callee_at m.now.class first) }
    requires inside { first < 3 * length p.now.methods }
    requires flagged { slice_index_or recurs.now first false ≡ true }
    ensures { IfOk result (λ round.
        ComesBack p.now (tagged_by tags.now) (marked_section mark) round.way round.again) }
{
    let class = m.class;
    let mut places = no_places(alloc, 3 * p.methods.len())?;
    let mut way = Rows::new(alloc);
    way.push(Site {
        method: mark.method,
        mode: section_mode(m, mark.spot),
        at,
    })?;
    let mut node = first;
    while place_of(&places, node) == 0 {
        let Some(i) = node_turn(p, recurs, tags, class, node) else {
            unreachable!()
        };
        let Some(next) = called_at(p, tags, class, node, i) else {
            unreachable!()
        };
        way.push(site_at(class, node, i))?;
        places.set(node as usize, way.len());
        node = next;
    }
    let again = place_of(&places, node) - 1;
    Ok(Round { way, again })
}
