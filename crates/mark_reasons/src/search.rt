//! The search through what a section calls.

ghost use Rattle.std.specs.Prelude.{◌≡◌, ◌<◌, ◌≤◌, ◌/◌, Some, false, [], length, nat_lt, replicate};
ghost use Rattle.std.specs.Prelude.{slice_get, OnOk, IfOk};
ghost use Rattle.jvm_types.specs.declared.limits.TheConstants.{MOST_INSTRUCTIONS as most};
ghost use Rattle.jvm_types.specs.ProgramInvariant.{IsProgram};
ghost use Rattle.checked_program.specs.TaggedCode.{tagged_by};
ghost use Rattle.guard_analysis.specs.CallGraph.{mode_at};
ghost use Rattle.mark_reasons.specs.Firsts.{IsFirst};
ghost use Rattle.mark_reasons.specs.OwnFlags.{AreOwn};
ghost use Rattle.mark_reasons.specs.Reasons.{marked_section};
ghost use Rattle.mark_reasons.specs.Searches.{node_call, node_fault as rule_at, node_visits};
ghost use Rattle.mark_reasons.specs.Searches.{own_call, site_at, search_visited, visits};
ghost use Rattle.mark_reasons.specs.Searches.{AreCalledBefore, IsBack, IsFaultFound};
ghost use Rattle.mark_reasons.specs.Searches.{IsFirstFaultOf};

use crate::reason::Site;
use checked_program::{Mode, SectionMark, Tags, Uses};
use guard_analysis::call_graph::mode_at;
use guard_analysis::calls::call_at;
use guard_analysis::faults::fault_at;
use guard_analysis::flag_at;
use guard_analysis::marking::section_mode;
use jvm_types::{MethodInfo, Program, Rows};
use std::alloc::{AllocError, Global};

/// A node of the graph of calls that the search came to: by an instruction of the method of the
/// entry before it that `caller` numbers from 1, or by an own instruction of the section where it
/// is 0.
#[derive(Clone, Copy, Debug, PartialEq, Eq)]
pub struct Entry {
    pub node: u32,
    pub caller: usize,
    pub at: usize,
}

/// The nodes that were found, in the order in which they were, and of each node whether it is among
/// them.
#[derive(Debug, Drop)]
pub struct Search {
    pub seen: Rows<bool>,
    pub queue: Rows<Entry>,
}

fn visit(
    search: &mut Search,
    called: Option<u32>,
    caller: usize,
    at: usize,
) -> Result<(), AllocError>
    ensures { OnOk result (search.new ≡ search_visited search.old called caller at) }
{
    match called {
        Some(node) => add(search, node, caller, at),
        None => Ok(()),
    }
}

fn add(search: &mut Search, node: u32, caller: usize, at: usize) -> Result<(), AllocError>
    ensures { OnOk result (search.new ≡ search_visited search.old (Some node) caller at) }
{
    let place = node as usize;
    if place < search.seen.len() && !flag_at(search.seen.as_slice(), place) {
        search.queue.push(Entry { node, caller, at })?;
        search.seen.set(place, true);
    }
    Ok(())
}

/// Adds what the instructions of a method call that is called so.
fn visit_calls(
    search: &mut Search,
    p: &Program,
    m: &MethodInfo,
    t: &Tags,
    mode: Mode,
    caller: usize,
) -> Result<(), AllocError>
    requires { length p.now.methods ≤ most }
    ensures { OnOk result (search.new ≡ visits (node_call p.now (Some m.now) (Some t.now) mode)
        search.old caller (length m.now.code)) }
{
    for i in 0..m.code.len() {
        visit(search, call_at(p, mode, m, t, i), caller, i)?;
    }
    Ok(())
}

/// Adds what the method of a node calls.
fn visit_node(
    search: &mut Search,
    p: &Program,
    tags: &Rows<Tags>,
    class: u16,
    node: u32,
    caller: usize,
) -> Result<(), AllocError>
    requires { length p.now.methods ≤ most }
    ensures { OnOk result (search.new ≡ node_visits p.now (slice_get p.now.methods (node / 3))
        (slice_get tags.now (node / 3)) (mode_at class node) search.old caller) }
{
    let place = node as usize / 3;
    match p.methods.get(place) {
        Some(m) => match tags.get(place) {
            Some(t) => visit_calls(search, p, m, t, mode_at(class, node as usize), caller),
            None => Ok(()),
        },
        None => Ok(()),
    }
}

/// What an own instruction calls of a section that runs its method so.
pub fn own_call(
    p: &Program,
    mode: Mode,
    m: &MethodInfo,
    t: &Tags,
    own: &[bool],
    i: usize,
) -> Option<u32>
    requires { length p.now.methods ≤ most }
    ensures { result ≡ own_call p.now mode m.now t.now.frames own.now i }
{
    if flag_at(own, i) {
        call_at(p, mode, m, t, i)
    } else {
        None
    }
}

/// Adds what the own instructions of a section call.
fn visit_own(
    search: &mut Search,
    p: &Program,
    mode: Mode,
    m: &MethodInfo,
    t: &Tags,
    own: &[bool],
) -> Result<(), AllocError>
    requires { length p.now.methods ≤ most }
    ensures { OnOk result (search.new ≡ visits (own_call p.now mode m.now t.now.frames own.now)
        search.old 0 (length m.now.code)) }
{
    for i in 0..m.code.len() {
        visit(search, own_call(p, mode, m, t, own, i), 0, i)?;
    }
    Ok(())
}

/// The first instruction of a method that breaks a rule where the method is called so.
fn first_fault(
    p: &Program,
    uses: &Uses,
    method: usize,
    mode: Mode,
    m: &MethodInfo,
    t: &Tags,
) -> Option<usize>
    ensures { IsFirst (λ i.
        nat_lt 0 (rule_at p.now uses.now method (Some m.now) (Some t.now) mode i))
        (length m.now.code) result }
{
    for i in 0..m.code.len() {
        if fault_at(p, uses, method, mode, m, t, i) > 0 {
            return Some(i);
        }
    }
    None
}

/// The same of the method of a node.
fn node_fault(p: &Program, uses: &Uses, tags: &Rows<Tags>, class: u16, node: u32) -> Option<usize>
    ensures { IsFirstFaultOf p.now uses.now (node / 3)
        (slice_get p.now.methods (node / 3)) (slice_get tags.now (node / 3)) (mode_at class node)
        result }
{
    let place = node as usize / 3;
    match p.methods.get(place) {
        Some(m) => match tags.get(place) {
            Some(t) => first_fault(p, uses, place, mode_at(class, node as usize), m, t),
            None => None,
        },
        None => None,
    }
}

fn entry_at(queue: &Rows<Entry>, k: usize) -> Entry
    requires { k < length queue.now }
    ensures { slice_get queue.now k ≡ Some result }
{
    match queue.get(k) {
        Some(e) => *e,
        None => unreachable!(),
    }
}

/// The instruction of a number in the method of a node.
pub fn site_at(class: u16, node: u32, at: usize) -> Site
    ensures { result ≡ site_at class node at }
{
    Site {
        method: node / 3,
        mode: mode_at(class, node as usize),
        at,
    }
}

/// The instructions by which the search came to an entry, from an own one of the section on, whose
/// method is given.
fn way_to(
    alloc: Global,
    queue: &Rows<Entry>,
    class: u16,
    own: Mode,
    method: u32,
    entry: usize,
) -> Result<Rows<Site>, AllocError>
    requires before { AreCalledBefore queue.now }
    requires inside { entry < length queue.now }
    ensures { IfOk result (IsBack class own method queue.now entry) }
{
    let mut way = Vec::new(alloc);
    let mut k = entry;
    let mut e = entry_at(queue, k);
    while e.caller > 0 {
        k = e.caller - 1;
        let caller = entry_at(queue, k);
        way.push(site_at(class, caller.node, e.at))?;
        e = caller;
    }
    way.push(Site {
        method,
        mode: own,
        at: e.at,
    })?;
    way.reverse();
    Ok(Rows::from_vec(way))
}

fn nothing_yet(alloc: Global, nodes: usize) -> Result<Search, AllocError>
    ensures { IfOk result (λ w. w ≡ record { seen = replicate nodes false; queue = [] }) }
{
    Ok(Search {
        seen: Rows::from_vec(vec![in alloc; false; nodes]?),
        queue: Rows::new(alloc),
    })
}

/// The way to an instruction that breaks a rule.
#[derive(Debug, Drop)]
pub struct Fault {
    pub way: Rows<Site>,
    pub site: Site,
    pub rule: u8,
}

/// The rule that an instruction of the method of a node breaks; 0 for none.
fn rule_at(p: &Program, uses: &Uses, tags: &Rows<Tags>, class: u16, node: u32, at: usize) -> u8
    ensures { result ≡ rule_at p.now uses.now (node / 3) (slice_get p.now.methods (node / 3))
        (slice_get tags.now (node / 3)) (mode_at class node) at }
{
    let place = node as usize / 3;
    match p.methods.get(place) {
        Some(m) => match tags.get(place) {
            Some(t) => fault_at(p, uses, place, mode_at(class, node as usize), m, t, at),
            None => 0,
        },
        None => 0,
    }
}

/// The nearest method that a section calls which breaks a rule, with its first instruction that
/// does, and the calls that lead there: the methods that are called by fewest calls first, and of
/// these in the order of the calls. `own` tells the own instructions of the section.
pub fn find_fault(
    alloc: Global,
    p: &Program,
    uses: &Uses,
    tags: &Rows<Tags>,
    mark: SectionMark,
    m: &MethodInfo,
    t: &Tags,
    own: &[bool],
) -> Result<Option<Fault>, AllocError>
    requires program { IsProgram p.now }
    requires few { length p.now.methods ≤ most }
    requires there { slice_get p.now.methods mark.method ≡ Some m.now }
    requires tagged { slice_get tags.now mark.method ≡ Some t.now }
    requires own { AreOwn p.now (tagged_by tags.now) mark.method mark.spot own.now }
    ensures { IfOk result (IsFaultFound p.now (tagged_by tags.now) uses.now (marked_section mark)) }
{
    let class = m.class;
    let mode = section_mode(m, mark.spot);
    let mut w = nothing_yet(alloc, 3 * p.methods.len())?;
    visit_own(&mut w, p, mode, m, t, own)?;
    let mut k = 0;
    while k < w.queue.len() {
        let e = entry_at(&w.queue, k);
        if let Some(at) = node_fault(p, uses, tags, class, e.node) {
            let way = way_to(alloc, &w.queue, class, mode, mark.method, k)?;
            let rule = rule_at(p, uses, tags, class, e.node, at);
            return Ok(Some(Fault {
                way,
                site: site_at(class, e.node, at),
                rule,
            }));
        }
        visit_node(&mut w, p, tags, class, e.node, k + 1)?;
        k += 1;
    }
    Ok(None)
}
