//! What the instructions of a method lead to within blocks: of each instruction and rule in how
//! many depths of blocks a way leads from it to an instruction that breaks the rule.

ghost use Rattle.std.specs.Prelude.{◌≡◌, ◌<◌, ◌≤◌, ◌+◌, ◌&&◌, nat_lt, length, slice_get};
ghost use Rattle.std.specs.Prelude.{slice_index, Some, IfOk, OnOk};
ghost use Rattle.std.specs.List.{list_any};
ghost use Rattle.jvm_types.specs.Verifying.{covers, edges};
ghost use Rattle.checked_program.specs.Tagging.{catches_all};
ghost use Rattle.code_table.specs.PcTables.{number_at};
ghost use Rattle.widest_paths.specs.WidestPaths.{AddsEdges, IsInFan};
ghost use Rattle.guard_analysis.specs.BlockReach.{fan_of, is_led_to, level_at, levels_before};
ghost use Rattle.guard_analysis.specs.BlockReach.{number_else, open_rows, turns_at};
ghost use Rattle.guard_analysis.specs.BlockReach.{turns_before, turns_in};
ghost use Rattle.guard_analysis.specs.BlockReach.{AreReaches, HasFanAt, IsFirstRule, IsGraphOf};
ghost use Rattle.guard_analysis.specs.BlockReach.{IsOnward, IsThrown, IsThrownBefore};
ghost use Rattle.guard_analysis.specs.BlockWalks.{ways_from};

use crate::block_walk::{covers, ways_from};
use checked_program::Tags;
use code_table::{IndexedMethod, can_throw, edges};
use jvm_types::{Insn, MethodInfo, Row, Rows};
use std::alloc::{AllocError, Global};
use widest_paths::{Fan, Graph, widest};

/// How many rules an instruction can break, from 1 on.
const RULES: u8 = 7;

/// Of each rule, from 1 on, and of each instruction in how many depths it leads to the rule.
#[derive(Debug, Drop)]
pub struct Reaches {
    rules: Rows<Rows<usize>>,
}

/// How many monitors are held at an instruction; 0 where it is not reached.
fn level_of(m: &MethodInfo, tags: &Tags, i: usize) -> usize
    ensures { result ≡ level_at m.now tags.now.frames i }
{
    match m.code.get(i) {
        Some(_) => match m.targets.get(i) {
            Some(_) => match tags.frames.get(i) {
                Some(Some(f)) => f.held().len(),
                Some(None) => 0,
                None => 0,
            },
            None => 0,
        },
        None => 0,
    }
}

fn levels(alloc: Global, m: &MethodInfo, tags: &Tags) -> Result<Rows<usize>, AllocError>
    ensures { IfOk result (λ v. v ≡ levels_before m.now tags.now.frames (length m.now.code)) }
{
    let mut found = Rows::new(alloc);
    for i in 0..m.code.len() {
        found.push(level_of(m, tags, i))?;
    }
    Ok(found)
}

fn catches_all_at(pc: u32, row: &Row) -> bool
    ensures { result ≡ (catches_all row.now && covers pc row.now) }
{
    row.catch_class == 0 && covers(pc, row)
}

/// One more than how many rows an exception at a pc is compared with: those up to the first that
/// covers it and catches all.
fn open_turns(pc: u32, rows: &[Row]) -> usize
    ensures { result ≡ 1 + open_rows pc rows.now }
{
    let mut count = 1;
    for row in rows {
        count += 1;
        if catches_all_at(pc, row) {
            return count;
        }
    }
    count
}

/// The turns of an instruction: 0 outside of blocks, else 1, and 1 more for each row that it is
/// compared with.
fn turns_at(rows: &[Row], insn: &Insn, level: usize) -> usize
    ensures { result ≡ turns_at rows.now insn.now level }
{
    if level == 0 {
        0
    } else if can_throw(&insn.op) {
        open_turns(insn.pc, rows)
    } else {
        1
    }
}

fn turns_in(m: &MethodInfo, tags: &Tags, i: usize) -> usize
    ensures { result
        ≡ turns_in m.now.rows (slice_get m.now.code i) (level_at m.now tags.now.frames i) }
{
    match m.code.get(i) {
        Some(insn) => turns_at(m.rows.as_slice(), insn, level_of(m, tags, i)),
        None => 0,
    }
}

fn turns(alloc: Global, m: &MethodInfo, tags: &Tags) -> Result<Rows<usize>, AllocError>
    ensures { IfOk result (λ v. v ≡ turns_before m.now tags.now.frames (length m.now.code)) }
{
    let mut found = Rows::new(alloc);
    for i in 0..m.code.len() {
        found.push(turns_in(m, tags, i))?;
    }
    Ok(found)
}

/// Adds the edges of a fan to the instruction at a pc, where one begins there.
fn add_fan(g: &mut Graph, m: &IndexedMethod<'_>, pc: u32, fan: Fan) -> Result<(), AllocError>
    requires { length g.old.into.items ≡ length m.now.code }
    ensures { OnOk result (AddsEdges g.old g.new
        (λ i k. (number_at m.now.code pc ≡ Some k) × IsInFan g.old fan i)) }
{
    match m.find(pc) {
        Some(k) => g.add(k, fan),
        None => Ok(()),
    }
}

fn pc_at(pcs: &[u32], t: usize) -> u32
    requires { t < length pcs.now }
    ensures { result ≡ slice_index pcs.now t }
{
    pcs[t]
}

/// The same for each of some pcs.
fn add_fans(g: &mut Graph, m: &IndexedMethod<'_>, pcs: &[u32], fan: Fan) -> Result<(), AllocError>
    requires { length g.old.into.items ≡ length m.now.code }
    ensures { OnOk result (AddsEdges g.old g.new
        (λ i k. HasFanAt m.now.code pcs.now (length pcs.now) k × IsInFan g.old fan i)) }
{
    for t in 0..pcs.len() {
        let pc = pc_at(pcs, t);
        add_fan(g, m, pc, fan)?;
    }
    Ok(())
}

/// Adds the edges from an instruction to those that it goes on at.
fn add_edges(
    alloc: Global,
    g: &mut Graph,
    m: &IndexedMethod<'_>,
    insn: &Insn,
    i: usize,
) -> Result<(), AllocError>
    requires nodes { length g.old.into.items ≡ length m.now.code }
    requires short { i < length m.now.code }
    ensures { OnOk result (AddsEdges g.old g.new
        (λ x k. HasFanAt m.now.code (edges insn.now) (length (edges insn.now)) k
        × IsInFan g.old (record { first = i; last = i + 1; turn = 0 }) x)) }
{
    let pcs = edges(alloc, insn)?;
    let fan = Fan {
        first: i,
        last: i + 1,
        turn: 0,
    };
    add_fans(g, m, pcs.as_slice(), fan)
}

/// The number of the instruction at a pc; another where none begins there.
fn number_else(m: &IndexedMethod<'_>, pc: u32, other: usize) -> usize
    ensures { result ≡ number_else (number_at m.now.code pc) other }
{
    match m.find(pc) {
        Some(i) => i,
        None => other,
    }
}

/// Adds the edges from the instructions that a row covers to its handler.
fn add_row(g: &mut Graph, m: &IndexedMethod<'_>, row: &Row, turn: usize) -> Result<(), AllocError>
    requires nodes { length g.old.into.items ≡ length m.now.code }
    ensures { OnOk result (AddsEdges g.old g.new
        (λ i k. (number_at m.now.code row.now.handler ≡ Some k)
        × IsInFan g.old (fan_of m.now.code row.now turn) i)) }
{
    let fan = Fan {
        first: number_else(m, row.start, 0),
        last: number_else(m, row.end, m.method().code.len()),
        turn,
    };
    add_fan(g, m, row.handler, fan)
}

/// Adds the edges from the instruction of a number, where that stands in a block, to those that it
/// goes on at.
fn add_insn(
    alloc: Global,
    g: &mut Graph,
    m: &IndexedMethod<'_>,
    tags: &Tags,
    i: usize,
) -> Result<(), AllocError>
    requires nodes { length g.old.into.items ≡ length m.now.code }
    ensures { OnOk result (AddsEdges g.old g.new (λ x k. (x ≡ i)
        × (0 < level_at m.now tags.now.frames i) × (0 < slice_index g.old.turns i)
        × IsOnward m.now i k)) }
{
    match m.method().code.get(i) {
        Some(insn) if level_of(m.method(), tags, i) > 0 => add_edges(alloc, g, m, insn, i),
        _ => Ok(()),
    }
}

/// Adds the edges from each instruction that stands in a block to those that it goes on at.
fn add_insns(
    alloc: Global,
    g: &mut Graph,
    m: &IndexedMethod<'_>,
    tags: &Tags,
) -> Result<(), AllocError>
    requires nodes { length g.old.into.items ≡ length m.now.code }
    ensures { OnOk result (AddsEdges g.old g.new (λ x k. (0 < level_at m.now tags.now.frames x)
        × (0 < slice_index g.old.turns x) × IsOnward m.now x k)) }
{
    for i in 0..m.method().code.len() {
        add_insn(alloc, g, m, tags, i)?;
    }
    Ok(())
}

/// Adds the edges of the row of a number.
fn add_row_at(g: &mut Graph, m: &IndexedMethod<'_>, r: usize, turn: usize) -> Result<(), AllocError>
    requires nodes { length g.old.into.items ≡ length m.now.code }
    ensures { OnOk result (AddsEdges g.old g.new
        (λ i k. IsThrown m.now g.old turn (slice_get m.now.rows r) i k)) }
{
    match m.method().rows.get(r) {
        Some(row) => add_row(g, m, row, turn),
        None => Ok(()),
    }
}

/// Adds the edges of all rows.
fn add_rows(g: &mut Graph, m: &IndexedMethod<'_>) -> Result<(), AllocError>
    requires nodes { length g.old.into.items ≡ length m.now.code }
    ensures { OnOk result (AddsEdges g.old g.new
        (λ i k. IsThrownBefore m.now g.old (length m.now.rows) i k)) }
{
    for r in 0..m.method().rows.len() {
        add_row_at(g, m, r, r + 1)?;
    }
    Ok(())
}

/// The graph of the instructions of a method that stand in blocks. The level of each is how many
/// monitors are held there.
fn graph(alloc: Global, m: &IndexedMethod<'_>, tags: &Tags) -> Result<Graph, AllocError>
    ensures { IfOk result (IsGraphOf m.now tags.now.frames) }
{
    let method = m.method();
    let levels = levels(alloc, method, tags)?;
    let turns = turns(alloc, method, tags)?;
    let mut g = Graph::new(alloc, levels, turns)?;
    add_insns(alloc, &mut g, m, tags)?;
    add_rows(&mut g, m)?;
    Ok(g)
}

impl Reaches {
    /// What the instructions of a method lead to, of which each breaks the rule of its grade; 0 is
    /// none.
    pub fn of(
        alloc: Global,
        m: &IndexedMethod<'_>,
        tags: &Tags,
        grades: &[u8],
    ) -> Result<Self, AllocError>
        ensures { IfOk result (AreReaches m.now tags.now.frames grades.now) }
    {
        let g = graph(alloc, m, tags)?;
        let mut rules = Rows::new(alloc);
        for r in 0..RULES {
            let widths = widest(alloc, &g, grades, r + 1)?;
            rules.push(widths)?;
        }
        Ok(Reaches { rules })
    }

    /// The first rule that is broken within the block whose `monitorenter` has this number and
    /// stands where so many monitors are held; 0 where none is.
    pub fn first_rule(
        &self,
        alloc: Global,
        m: &IndexedMethod<'_>,
        depth: usize,
        enter: usize,
    ) -> Result<u8, AllocError>
        ensures { IfOk result (IsFirstRule self.now.rules (ways_from m.now enter) depth) }
    {
        let ways = ways_from(alloc, m, enter)?;
        Ok(first_led_to(self.rules.as_slice(), ways.as_slice(), depth))
    }
}

/// Whether an instruction leads to a rule at a depth.
fn leads_at(widths: &Rows<usize>, k: usize, depth: usize) -> bool
    ensures { result ≡ nat_lt depth (slice_index widths.now k) }
{
    if k < widths.len() {
        depth < widths.as_slice()[k]
    } else {
        false
    }
}

/// Whether one of these instructions does.
fn leads(widths: &Rows<usize>, ways: &[usize], depth: usize) -> bool
    ensures { result ≡ list_any (λ k. nat_lt depth (slice_index widths.now k)) ways.now }
{
    for k in ways {
        if leads_at(widths, *k, depth) {
            return true;
        }
    }
    false
}

fn is_led_to(rules: &[Rows<usize>], r: u8, ways: &[usize], depth: usize) -> bool
    ensures { result ≡ is_led_to rules.now ways.now depth r }
{
    match rules.get(r as usize) {
        Some(widths) => leads(widths, ways, depth),
        None => false,
    }
}

/// The first rule that one of these instructions leads to at a depth; 0 where there is none.
fn first_led_to(rules: &[Rows<usize>], ways: &[usize], depth: usize) -> u8
    ensures { IsFirstRule rules.now ways.now depth result }
{
    for r in 0..RULES {
        if is_led_to(rules, r, ways, depth) {
            return r + 1;
        }
    }
    0
}
