//! The calls that a way has in common with the one that was told last.

ghost use Rattle.std.specs.Prelude.{◌≡◌, ◌<◌, ◌≤◌, ◌+◌, ◌-◌, ◌^◌, ◌==◌, if◌then◌else◌, length};
ghost use Rattle.std.specs.Prelude.{drop, Some, IfOk};
ghost use Rattle.std.specs.Option.{option_copied};
ghost use Rattle.mark_reasons.specs.SharedWays.{calls_named as the_calls};
ghost use Rattle.mark_reasons.specs.SharedWays.{is_same_site as is_the_same};
ghost use Rattle.mark_reasons.specs.SharedWays.{last_after, last_with as the_last_with};
ghost use Rattle.mark_reasons.specs.SharedWays.{begins_with as does_begin_with};
ghost use Rattle.mark_reasons.specs.SharedWays.{end_of as the_end_of, same_end as the_same_end};
ghost use Rattle.mark_reasons.specs.SharedWays.{shared_calls as the_shared_calls};

use crate::reason::{Reason, Site};
use checked_program::{SectionMark, Spot};
use jvm_types::Rows;
use std::alloc::{AllocError, Global};

/// A section below which calls stand, and the calls that its reason names.
#[derive(Debug, Drop)]
pub struct LastWay {
    pub method: u32,
    pub spot: Spot,
    pub way: Rows<Site>,
}

// Whether two are one instruction, however its method is called.
fn is_same_site(x: &Site, y: &Site) -> bool
    ensures { result ≡ is_the_same x.now y.now }
{
    x.method == y.method && x.at == y.at
}

// The last ones, so many at most.
fn end_of(sites: &[Site], count: usize) -> &[Site]
    ensures end { result.now ≡ the_end_of count sites.now }
    ensures few { length result.now ≤ length sites.now }
{
    let skipped = sites.len().saturating_sub(count);
    &sites[skipped..]
}

fn begins_with(sites: &[Site], y: &Site) -> bool
    ensures { result ≡ does_begin_with sites.now y.now }
{
    match sites {
        [x, ..] => is_same_site(x, y),
        [] => false,
    }
}

fn behind_first(sites: &[Site]) -> &[Site]
    ensures { result.now ≡ drop 1 sites.now }
{
    match sites {
        [_, rest @ ..] => rest,
        [] => &[],
    }
}

// How many of the last are the same in both.
fn same_end(told: &[Site], way: &[Site]) -> usize
    ensures same { result ≡ the_same_end told.now way.now }
    ensures few { result ≤ length way.now }
{
    let mut run = 0;
    let mut front = end_of(told, way.len());
    let mut left = end_of(way, told.len());
    while let [y, rest @ ..] = left {
        run = run_with(run, begins_with(front, y));
        front = behind_first(front);
        left = rest;
    }
    run
}

// One more where they are the same, else none.
fn run_with(run: usize, same: bool) -> usize
    requires { run < 2 ^ 64 - 1 }
    ensures { result ≡ (if same then run + 1 else 0) }
{
    if same { run + 1 } else { 0 }
}

/// How many calls at the end of a way stand below the section that was told last; a single one is
/// told as it is.
pub fn shared_calls(last: &Option<LastWay>, way: &[Site]) -> usize
    ensures shared { result ≡ the_shared_calls last.now way.now }
    ensures few { result ≤ length way.now }
{
    let Some(last) = last else {
        return 0;
    };
    let count = same_end(last.way.as_slice(), way);
    if count > 1 { count } else { 0 }
}

// The calls that a reason names.
fn calls_named(reason: &Option<Reason>) -> &[Site]
    ensures { result.now ≡ the_calls reason.now }
{
    match reason {
        Some(Reason::Breaks { way, .. }) => way.as_slice(),
        Some(Reason::Recurs { way, .. }) => way.as_slice(),
        Some(Reason::Elsewhere) => &[],
        Some(Reason::Unreached) => &[],
        None => &[],
    }
}

fn copied(alloc: Global, way: &[Site]) -> Result<Rows<Site>, AllocError>
    ensures { IfOk result (λ copy. copy ≡ way.now) }
{
    let mut copy = Vec::new(alloc);
    copy.extend_from_slice(way)?;
    Ok(Rows::from_vec(copy))
}

// A section whose calls all stand below another one leaves that one to be named.
fn last_of(
    alloc: Global,
    last: Option<LastWay>,
    mark: SectionMark,
    way: &[Site],
) -> Result<Option<LastWay>, AllocError>
    ensures { IfOk result (λ now. now ≡ (if the_shared_calls last way.now == length way.now
        then last else Some (record { method = mark.method; spot = mark.spot; way = way.now }))) }
{
    if shared_calls(&last, way) == way.len() {
        return Ok(last);
    }
    Ok(Some(LastWay {
        method: mark.method,
        spot: mark.spot,
        way: copied(alloc, way)?,
    }))
}

fn last_with(
    alloc: Global,
    last: Option<LastWay>,
    mark: SectionMark,
    way: &[Site],
) -> Result<Option<LastWay>, AllocError>
    ensures { IfOk result (λ now. now ≡ the_last_with last mark way.now) }
{
    match way {
        [] => Ok(last),
        [_, ..] => last_of(alloc, last, mark, way),
    }
}

/// The section that calls stand below once a mark and its reason were told.
pub fn last_told(
    alloc: Global,
    last: Option<LastWay>,
    mark: SectionMark,
    reason: &Option<Reason>,
) -> Result<Option<LastWay>, AllocError>
    ensures { IfOk result (λ now. now ≡ last_after last mark reason.now) }
{
    last_with(alloc, last, mark, calls_named(reason))
}
