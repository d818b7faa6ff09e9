//! The two switches (JVMS 6.5, "tableswitch", "lookupswitch"), behind their padding.

ghost use Rattle.std.specs.Prelude.{◌≡◌, ◌≤◌, ◌≤ℤ◌, ◌-ℤ◌, ◌+ℤ◌, ◌^◌, ◌+◌, ◌*◌, [], ◌∷◌, ◌++◌, pos};
ghost use Rattle.std.specs.Prelude.{map, drop, nat_abs, int_lt, length, IfOk, OnOk};
ghost use Rattle.jvm_types.specs.CodeFault.{s4_of, landing, offsets, case_offsets, ascend};
ghost use Rattle.jvm_types.specs.ReadCode.{cases_of};
ghost use Rattle.code_decode.specs.Decoding.{IsTable, IsSwitchTable, IsLookup, case_of};

use crate::numbers::{behind, landing, pc_of, s4_of};
use crate::operands::{Found, Stop};
use jvm_types::{Case, KRule, Op, Rows};
use std::alloc::{AllocError, Global};

/// The targets of a table: where its offsets lead, and the same as pcs.
#[derive(Debug, Drop)]
struct Ways {
    to: Rows<i64>,
    pcs: Rows<u32>,
}

/// The pairs of a `lookupswitch`, and where their offsets lead.
#[derive(Debug, Drop)]
struct Pairs {
    to: Rows<i64>,
    cases: Rows<Case>,
}

/// Adds where the offset at the front leads.
fn push_way(to: &mut Rows<i64>, pc: u16, bytes: &[u8]) -> Result<(), AllocError>
    requires { 4 ≤ length bytes.now }
    ensures { OnOk result (to.new ≡ to.old ++ landing pc (s4_of bytes.now) ∷ []) }
{
    to.push(landing(pc, s4_of(bytes)))
}

/// Adds the same as a pc.
fn push_pc(pcs: &mut Rows<u32>, pc: u16, bytes: &[u8]) -> Result<(), AllocError>
    requires { 4 ≤ length bytes.now }
    ensures { OnOk result (pcs.new ≡ pcs.old ++ nat_abs (landing pc (s4_of bytes.now)) ∷ []) }
{
    pcs.push(pc_of(pc, s4_of(bytes)))
}

/// Adds the pair at the front.
fn push_case(cases: &mut Rows<Case>, pc: u16, bytes: &[u8]) -> Result<(), AllocError>
    requires { 8 ≤ length bytes.now }
    ensures { OnOk result (cases.new ≡ cases.old ++ case_of pc bytes.now ∷ []) }
{
    cases.push(Case {
        key: s4_of(bytes),
        target: pc_of(pc, s4_of(behind(4, bytes))),
    })
}

/// The targets of `count` offsets behind the default, whose own is `otherwise`.
fn read_ways(
    alloc: Global,
    pc: u16,
    otherwise: i64,
    count: usize,
    bytes: &[u8],
) -> Result<Ways, AllocError>
    requires { 4 * count ≤ length bytes.now }
    ensures to { IfOk result (λ w. w.to ≡ otherwise ∷ offsets pc count bytes.now) }
    ensures pcs { IfOk result (λ w. w.pcs ≡ map nat_abs (offsets pc count bytes.now)) }
{
    let mut to = Rows::new(alloc);
    let mut pcs = Rows::new(alloc);
    let mut rest = bytes;
    to.push(otherwise)?;
    for _ in 0..count {
        push_way(&mut to, pc, rest)?;
        push_pc(&mut pcs, pc, rest)?;
        rest = behind(4, rest);
    }
    Ok(Ways { to, pcs })
}

/// How many numbers there are from `low` to `high`.
fn count_of(low: i32, high: i32) -> usize
    requires { low ≤ℤ high }
    ensures is { result ≡ nat_abs (high -ℤ low +ℤ pos 1) }
    ensures few { result ≤ 2 ^ 32 }
{
    (i64::from(high) - i64::from(low) + 1).unsigned_abs() as usize
}

/// A `tableswitch` of `count` numbers from `low` on.
fn table_of(
    alloc: Global,
    pc: u16,
    pad: usize,
    low: i32,
    count: usize,
    body: &[u8],
) -> Result<Found, Stop>
    requires pad { pad ≤ 3 }
    requires count { count ≤ 2 ^ 32 }
    requires room { 12 ≤ length body.now }
    ensures { IsSwitchTable pc pad low count body.now result }
{
    if body.len() < 12 + 4 * count {
        return Err(Stop::Rule(KRule::K2));
    }
    let way = s4_of(body);
    let ways = read_ways(alloc, pc, landing(pc, way), count, behind(12, body))?;
    Ok(Found {
        op: Op::Tableswitch {
            otherwise: pc_of(pc, way),
            low,
            targets: ways.pcs,
        },
        size: pad + (12 + 4 * count),
        targets: ways.to,
    })
}

/// A `tableswitch` from its default on, behind `pad` bytes of padding.
pub fn table(alloc: Global, pc: u16, pad: usize, body: &[u8]) -> Result<Found, Stop>
    requires { pad ≤ 3 }
    ensures { IsTable pc pad body.now result }
{
    if body.len() < 12 {
        return Err(Stop::Rule(KRule::K2));
    }
    let low = s4_of(behind(4, body));
    let high = s4_of(behind(8, body));
    if high < low {
        return Err(Stop::Rule(KRule::K6));
    }
    table_of(alloc, pc, pad, low, count_of(low, high), body)
}

/// Whether the first key is below the second.
fn is_below_next(bytes: &[u8]) -> bool
    requires { 12 ≤ length bytes.now }
    ensures { result ≡ int_lt (s4_of bytes.now) (s4_of (drop 8 bytes.now)) }
{
    s4_of(bytes) < s4_of(behind(8, bytes))
}

/// Whether the keys of `count` pairs ascend.
fn ascend(count: usize, bytes: &[u8]) -> bool
    requires { 8 * count ≤ length bytes.now }
    ensures { result ≡ ascend count bytes.now }
{
    if count == 0 {
        return true;
    }
    let mut rest = bytes;
    for _ in 1..count {
        if !is_below_next(rest) {
            return false;
        }
        rest = behind(8, rest);
    }
    true
}

/// `count` pairs of a key and an offset, behind the default, which leads to `otherwise`.
fn read_pairs(
    alloc: Global,
    pc: u16,
    otherwise: i64,
    count: usize,
    bytes: &[u8],
) -> Result<Pairs, AllocError>
    requires { 8 * count ≤ length bytes.now }
    ensures to { IfOk result (λ p. p.to ≡ otherwise ∷ case_offsets pc count bytes.now) }
    ensures cases { IfOk result (λ p. p.cases ≡ cases_of pc count bytes.now) }
{
    let mut to = Rows::new(alloc);
    let mut cases = Rows::new(alloc);
    let mut rest = bytes;
    to.push(otherwise)?;
    for _ in 0..count {
        push_way(&mut to, pc, behind(4, rest))?;
        push_case(&mut cases, pc, rest)?;
        rest = behind(8, rest);
    }
    Ok(Pairs { to, cases })
}

/// A `lookupswitch` from its default on, behind `pad` bytes of padding.
pub fn lookup(alloc: Global, pc: u16, pad: usize, body: &[u8]) -> Result<Found, Stop>
    requires { pad ≤ 3 }
    ensures { IsLookup pc pad body.now result }
{
    if body.len() < 8 {
        return Err(Stop::Rule(KRule::K2));
    }
    let stated = s4_of(behind(4, body));
    if stated < 0 {
        return Err(Stop::Rule(KRule::K6));
    }
    let count = stated.unsigned_abs() as usize;
    if body.len() < 8 + 8 * count {
        return Err(Stop::Rule(KRule::K2));
    }
    if !ascend(count, behind(8, body)) {
        return Err(Stop::Rule(KRule::K6));
    }
    let way = s4_of(body);
    let pairs = read_pairs(alloc, pc, landing(pc, way), count, behind(8, body))?;
    Ok(Found {
        op: Op::Lookupswitch {
            otherwise: pc_of(pc, way),
            cases: pairs.cases,
        },
        size: pad + (8 + 8 * count),
        targets: pairs.to,
    })
}
