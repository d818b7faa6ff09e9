//! The reason of each mark.

ghost use Rattle.std.specs.Prelude.{◌≡◌, ◌<◌, ◌≤◌, ◌*◌, Some, length, slice_get, IfOk};
ghost use Rattle.std.specs.List.{AllZip};
ghost use Rattle.jvm_types.specs.ProgramInvariant.{IsProgram};
ghost use Rattle.jvm_types.specs.declared.limits.TheConstants.{MOST_INSTRUCTIONS as most};
ghost use Rattle.checked_program.specs.OwnedArrays.{AreUses};
ghost use Rattle.checked_program.specs.MarkedProgram.{AreTaggings};
ghost use Rattle.checked_program.specs.TaggedCode.{tagged_by};
ghost use Rattle.checked_program.specs.Marks.{BreaksAt, CalleeBreaks, CalleeRecurs, HasMark};
ghost use Rattle.checked_program.specs.Marks.{OwnBreaks};
ghost use Rattle.graph_closure.specs.Walks.{AreRecurring};
ghost use Rattle.guard_analysis.specs.CallGraph.{call_graph};
ghost use Rattle.mark_reasons.specs.Causes.{IsCauseMemo};
ghost use Rattle.mark_reasons.specs.Firsts.{IsFirst};
ghost use Rattle.mark_reasons.specs.OwnFlags.{AreOwn};
ghost use Rattle.mark_reasons.specs.Reasons.{callee_of, marked_section};
ghost use Rattle.mark_reasons.specs.Reasons.{HasCause, IsExplained, IsReason};
ghost use Rattle.mark_reasons.specs.Searches.{own_breaks, own_call, turns};

use crate::cause::{Cause, cause_of};
use crate::cause_memo::CauseMemo;
use crate::own::own_flags;
use crate::reached::is_spot_reached;
use crate::reason::{Reason, Site};
use crate::recursion::{come_back, turns};
use crate::search::{find_fault, own_call};
use checked_program::{Mode, SectionMark, Tags, Uses};
use graph_closure::recurring;
use guard_analysis::call_graph::call_graph;
use guard_analysis::faults::fault_at;
use guard_analysis::flag_at;
use guard_analysis::marking::section_mode;
use jvm_types::{MethodInfo, Program, Rows};
use std::alloc::{AllocError, Global};

/// Whether an own instruction breaks a rule.
fn own_breaks(
    p: &Program,
    uses: &Uses,
    mode: Mode,
    method: u32,
    m: &MethodInfo,
    t: &Tags,
    own: &[bool],
    rule: u8,
    i: usize,
) -> bool
    ensures { result ≡ own_breaks p.now uses.now mode method m.now t.now own.now rule i }
{
    flag_at(own, i) && fault_at(p, uses, method as usize, mode, m, t, i) == rule
}

/// The first own instruction that breaks a rule.
fn first_own(
    p: &Program,
    uses: &Uses,
    mode: Mode,
    method: u32,
    m: &MethodInfo,
    t: &Tags,
    own: &[bool],
    rule: u8,
) -> Option<usize>
    ensures { IsFirst (λ i.
        own_breaks p.now uses.now mode method m.now t.now
        own.now rule i) (length m.now.code) result }
{
    for i in 0..m.code.len() {
        if own_breaks(p, uses, mode, method, m, t, own, rule, i) {
            return Some(i);
        }
    }
    None
}

/// The first own instruction that calls a node which leads to a cycle.
fn first_own_turn(
    p: &Program,
    recurs: &[bool],
    mode: Mode,
    m: &MethodInfo,
    t: &Tags,
    own: &[bool],
) -> Option<usize>
    requires { length p.now.methods ≤ most }
    ensures { IsFirst (λ i. turns recurs.now (own_call p.now mode m.now t.now.frames own.now i))
        (length m.now.code) result }
{
    for i in 0..m.code.len() {
        if turns(recurs, own_call(p, mode, m, t, own, i)) {
            return Some(i);
        }
    }
    None
}

/// What keeps the place from being read that an instruction reads, if it is M5 that the instruction
/// breaks.
fn cause_if(
    alloc: Global,
    p: &Program,
    uses: &Uses,
    tags: &Rows<Tags>,
    memo: &mut CauseMemo,
    site: Site,
    rule: u8,
) -> Result<Option<Cause>, AllocError>
    requires program { IsProgram p.now }
    requires few { length p.now.methods ≤ most }
    requires taggings { AreTaggings p.now p.now.methods tags.now }
    requires uses { AreUses p.now (tagged_by tags.now) uses.now }
    requires breaks { BreaksAt p.now (tagged_by tags.now) uses.now (callee_of site) site.at rule }
    requires memo { IsCauseMemo p.now (tagged_by tags.now) memo.old }
    ensures memo { IsCauseMemo p.now (tagged_by tags.now) memo.new }
    ensures cause { IfOk result (HasCause p.now (tagged_by tags.now) site rule) }
{
    if rule == 5 {
        Ok(Some(cause_of(alloc, p, uses, tags, memo, site)?))
    } else {
        Ok(None)
    }
}

/// The reason of one of the marks M1 to M5.
fn own_reason(
    alloc: Global,
    p: &Program,
    uses: &Uses,
    tags: &Rows<Tags>,
    memo: &mut CauseMemo,
    mark: SectionMark,
    m: &MethodInfo,
    t: &Tags,
    own: &[bool],
) -> Result<Reason, AllocError>
    requires program { IsProgram p.now }
    requires few { length p.now.methods ≤ most }
    requires taggings { AreTaggings p.now p.now.methods tags.now }
    requires uses { AreUses p.now (tagged_by tags.now) uses.now }
    requires there { slice_get p.now.methods mark.method ≡ Some m.now }
    requires tagged { slice_get tags.now mark.method ≡ Some t.now }
    requires own { AreOwn p.now (tagged_by tags.now) mark.method mark.spot own.now }
    requires breaks { OwnBreaks p.now (tagged_by tags.now) uses.now (marked_section mark)
        mark.mark }
    requires memo { IsCauseMemo p.now (tagged_by tags.now) memo.old }
    ensures memo { IsCauseMemo p.now (tagged_by tags.now) memo.new }
    ensures reason { IfOk result
        (IsReason p.now (tagged_by tags.now) uses.now (marked_section mark) mark.mark) }
{
    let mode = section_mode(m, mark.spot);
    let Some(at) = first_own(p, uses, mode, mark.method, m, t, own, mark.mark) else {
        unreachable!()
    };
    let site = Site {
        method: mark.method,
        mode,
        at,
    };
    let cause = cause_if(alloc, p, uses, tags, memo, site, mark.mark)?;
    Ok(Reason::Breaks {
        way: Rows::new(alloc),
        site,
        rule: mark.mark,
        cause,
    })
}

/// The reason of the mark M6.
fn called_reason(
    alloc: Global,
    p: &Program,
    uses: &Uses,
    tags: &Rows<Tags>,
    memo: &mut CauseMemo,
    mark: SectionMark,
    m: &MethodInfo,
    t: &Tags,
    own: &[bool],
) -> Result<Reason, AllocError>
    requires program { IsProgram p.now }
    requires taggings { AreTaggings p.now p.now.methods tags.now }
    requires uses { AreUses p.now (tagged_by tags.now) uses.now }
    requires few { length p.now.methods ≤ most }
    requires there { slice_get p.now.methods mark.method ≡ Some m.now }
    requires tagged { slice_get tags.now mark.method ≡ Some t.now }
    requires own { AreOwn p.now (tagged_by tags.now) mark.method mark.spot own.now }
    requires breaks { CalleeBreaks p.now (tagged_by tags.now) uses.now (marked_section mark) }
    requires memo { IsCauseMemo p.now (tagged_by tags.now) memo.old }
    ensures memo { IsCauseMemo p.now (tagged_by tags.now) memo.new }
    ensures reason { IfOk result
        (IsReason p.now (tagged_by tags.now) uses.now (marked_section mark) 6) }
{
    let Some(fault) = find_fault(alloc, p, uses, tags, mark, m, t, own)? else {
        unreachable!()
    };
    let cause = cause_if(alloc, p, uses, tags, memo, fault.site, fault.rule)?;
    Ok(Reason::Breaks {
        way: fault.way,
        site: fault.site,
        rule: fault.rule,
        cause,
    })
}

/// The reason of the mark M7.
fn recurring_reason(
    alloc: Global,
    p: &Program,
    uses: &Uses,
    tags: &Rows<Tags>,
    recurs: &[bool],
    mark: SectionMark,
    m: &MethodInfo,
    t: &Tags,
    own: &[bool],
) -> Result<Reason, AllocError>
    requires program { IsProgram p.now }
    requires few { length p.now.methods ≤ most }
    requires recurs { AreRecurring (call_graph p.now tags.now).from (call_graph p.now tags.now).to
        (3 * length p.now.methods) recurs.now }
    requires there { slice_get p.now.methods mark.method ≡ Some m.now }
    requires tagged { slice_get tags.now mark.method ≡ Some t.now }
    requires own { AreOwn p.now (tagged_by tags.now) mark.method mark.spot own.now }
    requires returns { CalleeRecurs p.now (tagged_by tags.now) (marked_section mark) }
    ensures { IfOk result (IsReason p.now (tagged_by tags.now) uses.now (marked_section mark) 7) }
{
    let mode = section_mode(m, mark.spot);
    let Some(at) = first_own_turn(p, recurs, mode, m, t, own) else {
        unreachable!()
    };
    let Some(first) = own_call(p, mode, m, t, own, at) else {
        unreachable!()
    };
    let round = come_back(alloc, p, tags, recurs, mark, m, at, first)?;
    Ok(Reason::Recurs {
        way: round.way,
        again: round.again,
    })
}

/// The reason of one of the marks M1 to M7.
fn rule_reason(
    alloc: Global,
    p: &Program,
    uses: &Uses,
    tags: &Rows<Tags>,
    memo: &mut CauseMemo,
    recurs: &[bool],
    mark: SectionMark,
    m: &MethodInfo,
    t: &Tags,
) -> Result<Reason, AllocError>
    requires program { IsProgram p.now }
    requires taggings { AreTaggings p.now p.now.methods tags.now }
    requires uses { AreUses p.now (tagged_by tags.now) uses.now }
    requires few { length p.now.methods ≤ most }
    requires recurs { AreRecurring (call_graph p.now tags.now).from (call_graph p.now tags.now).to
        (3 * length p.now.methods) recurs.now }
    requires there { slice_get p.now.methods mark.method ≡ Some m.now }
    requires tagged { slice_get tags.now mark.method ≡ Some t.now }
    requires some { 0 < mark.mark }
    requires low { mark.mark < 8 }
    requires marked { HasMark p.now (tagged_by tags.now) uses.now (marked_section mark) mark.mark }
    requires memo { IsCauseMemo p.now (tagged_by tags.now) memo.old }
    ensures memo { IsCauseMemo p.now (tagged_by tags.now) memo.new }
    ensures reason { IfOk result
        (IsReason p.now (tagged_by tags.now) uses.now (marked_section mark) mark.mark) }
{
    let Some(own) = own_flags(alloc, p, tags, mark.method, m, t, mark.spot)? else {
        unreachable!()
    };
    if mark.mark == 6 {
        called_reason(alloc, p, uses, tags, memo, mark, m, t, own.as_slice())
    } else if mark.mark == 7 {
        recurring_reason(alloc, p, uses, tags, recurs, mark, m, t, own.as_slice())
    } else {
        own_reason(alloc, p, uses, tags, memo, mark, m, t, own.as_slice())
    }
}

/// The reason of a mark; none of M0.
pub fn reason_of(
    alloc: Global,
    p: &Program,
    uses: &Uses,
    tags: &Rows<Tags>,
    memo: &mut CauseMemo,
    recurs: &[bool],
    mark: SectionMark,
) -> Result<Option<Reason>, AllocError>
    requires program { IsProgram p.now }
    requires few { length p.now.methods ≤ most }
    requires taggings { AreTaggings p.now p.now.methods tags.now }
    requires uses { AreUses p.now (tagged_by tags.now) uses.now }
    requires recurs { AreRecurring (call_graph p.now tags.now).from (call_graph p.now tags.now).to
        (3 * length p.now.methods) recurs.now }
    requires marked { HasMark p.now (tagged_by tags.now) uses.now (marked_section mark) mark.mark }
    requires memo { IsCauseMemo p.now (tagged_by tags.now) memo.old }
    ensures memo { IsCauseMemo p.now (tagged_by tags.now) memo.new }
    ensures reason { IfOk result (IsExplained p.now (tagged_by tags.now) uses.now mark) }
{
    if mark.mark == 0 {
        return Ok(None);
    }
    if mark.mark >= 8 {
        if is_spot_reached(p, tags, mark.method, mark.spot) {
            return Ok(Some(Reason::Elsewhere));
        }
        return Ok(Some(Reason::Unreached));
    }
    let Some(m) = p.methods.get(mark.method as usize) else {
        unreachable!()
    };
    let Some(t) = tags.get(mark.method as usize) else {
        unreachable!()
    };
    let reason = rule_reason(alloc, p, uses, tags, memo, recurs, mark, m, t)?;
    Ok(Some(reason))
}

/// Of each node of the graph of calls, whether it leads to a method that calls itself.
pub fn recurring_nodes(
    alloc: Global,
    p: &Program,
    tags: &Rows<Tags>,
) -> Result<Vec<bool>, AllocError>
    requires program { IsProgram p.now }
    requires few { length p.now.methods ≤ most }
    ensures { IfOk result (λ v.
        AreRecurring (call_graph p.now tags.now).from (call_graph p.now tags.now).to
        (3 * length p.now.methods) v.items) }
{
    let graph = call_graph(alloc, p, tags)?;
    recurring(
        alloc,
        graph.from.as_slice(),
        graph.to.as_slice(),
        3 * p.methods.len(),
    )
}
