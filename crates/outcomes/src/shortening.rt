//! Orders with fewer switches between workers. No clause says how few: each order that is tried is
//! replayed.

ghost use Rattle.std.specs.Prelude.{◌≡◌, IfOk};
ghost use Rattle.machine_types.specs.Settings.{AreSettings};
ghost use Rattle.outcomes.specs.Comes.{LeadsTo};

use crate::ordering::Ordered;
use crate::standing::tried;
use checked_program::Checked;
use history_rule::Plain;
use jvm_types::Bytes;
use machine_types::Config;
use std::alloc::{AllocError, Global};

/// The most orders that are tried in place of one.
const MOST_TRIES: u8 = 200;

/// The most turns at its end that an order is tried without.
const MOST_CUTS: u8 = 8;

/// The longest order in place of which others are tried.
const MOST_SHORTENED: usize = 2_000;

/// Two turns of two workers in an order, one right behind the other: where the first and the second
/// begin, and where the second ends.
#[derive(Clone, Copy)]
struct Turns {
    first: usize,
    second: usize,
    end: usize,
}

/// How often another worker goes on by an order. No clause says so.
pub(crate) fn switches_in(order: &[u8]) -> usize {
    (1..order.len())
        .filter(|i| order[*i] != order[*i - 1])
        .count()
}

/// Where the turn ends that begins at a place.
fn turn_end(order: &[u8], from: usize) -> usize {
    for i in from..order.len() {
        if order[i] != order[from] {
            return i;
        }
    }
    order.len()
}

/// The turn at a place, and the next one.
fn turns_at(order: &[u8], first: usize) -> Turns {
    let second = turn_end(order, first);
    Turns {
        first,
        second,
        end: turn_end(order, second),
    }
}

/// Whether two turns that change places leave fewer switches: one of them comes beside a turn of
/// its own worker.
fn is_worth_a_try(order: &[u8], turns: Turns) -> bool {
    let comes_behind = turns.first > 0 && order.get(turns.first - 1) == order.get(turns.second);
    let comes_before = turns.end < order.len() && order.get(turns.end) == order.get(turns.first);
    comes_behind || comes_before
}

/// The next two turns, from a place on, that are worth a try.
fn next_turns(order: &[u8], from: usize) -> Option<Turns> {
    let mut turns = turns_at(order, from);
    for _ in from..order.len() {
        if turns.second == turns.end {
            return None;
        }
        if is_worth_a_try(order, turns) {
            return Some(turns);
        }
        turns = turns_at(order, turns.second);
    }
    None
}

/// A part of an order.
fn part(order: &[u8], from: usize, end: usize) -> &[u8] {
    match order.get(from..end) {
        Some(part) => part,
        None => &[],
    }
}

/// The order in which two turns have changed places.
fn changed(alloc: Global, order: &[u8], turns: Turns) -> Result<Bytes, AllocError> {
    let mut digits = Bytes::from_slice(alloc, part(order, 0, turns.first))?;
    digits.extend_from_slice(part(order, turns.second, turns.end))?;
    digits.extend_from_slice(part(order, turns.first, turns.second))?;
    digits.extend_from_slice(part(order, turns.end, order.len()))?;
    Ok(digits)
}

/// Where the last turn of an order begins.
fn last_turn(order: &[u8]) -> usize {
    for i in (1..order.len()).rev() {
        if order[i] != order[i - 1] {
            return i;
        }
    }
    0
}

/// The best order so far, and from where others are tried in place of it.
#[derive(Drop)]
struct Best {
    ordered: Ordered,
    from: usize,
}

/// The order in which two turns have changed places, where it comes to the same; else that of
/// before, of which the next turns are tried.
fn better(
    alloc: Global,
    p: &Checked,
    cfg: &Config,
    q: &Plain,
    ordered: Ordered,
    turns: Turns,
) -> Result<Best, AllocError>
    requires settings { AreSettings cfg.now }
    requires found { LeadsTo p.now cfg.now q.now.state ordered.order ordered.outcome }
    ensures { IfOk result
        (λ b. LeadsTo p.now cfg.now q.now.state b.ordered.order b.ordered.outcome) }
{
    let order = changed(alloc, ordered.order.as_slice(), turns)?;
    match tried(alloc, p, cfg, order, q)? {
        Some(shorter) => Ok(Best {
            ordered: shorter,
            from: 0,
        }),
        None => Ok(Best {
            ordered,
            from: turns.second,
        }),
    }
}

/// An order that comes to the same, in which turns of one worker stand together.
fn joined(
    alloc: Global,
    p: &Checked,
    cfg: &Config,
    q: &Plain,
    found: Ordered,
) -> Result<Ordered, AllocError>
    requires settings { AreSettings cfg.now }
    requires found { LeadsTo p.now cfg.now q.now.state found.order found.outcome }
    ensures { IfOk result (λ r. LeadsTo p.now cfg.now q.now.state r.order r.outcome) }
{
    let mut best = Best {
        ordered: found,
        from: 0,
    };
    for _ in 0..MOST_TRIES {
        let turns = match next_turns(best.ordered.order.as_slice(), best.from) {
            Some(turns) => turns,
            None => return Ok(best.ordered),
        };
        best = better(alloc, p, cfg, q, best.ordered, turns)?;
    }
    Ok(best.ordered)
}

/// An order that comes to the same without its last turns, which come by themselves.
fn cut(
    alloc: Global,
    p: &Checked,
    cfg: &Config,
    q: &Plain,
    found: Ordered,
) -> Result<Ordered, AllocError>
    requires settings { AreSettings cfg.now }
    requires found { LeadsTo p.now cfg.now q.now.state found.order found.outcome }
    ensures { IfOk result (λ r. LeadsTo p.now cfg.now q.now.state r.order r.outcome) }
{
    let mut best = found;
    for _ in 0..MOST_CUTS {
        let many = last_turn(best.order.as_slice());
        if many == 0 {
            return Ok(best);
        }
        let order = Bytes::from_slice(alloc, part(best.order.as_slice(), 0, many))?;
        match tried(alloc, p, cfg, order, q)? {
            Some(shorter) => best = shorter,
            None => return Ok(best),
        }
    }
    Ok(best)
}

/// An order that comes to the same as one that was found, with fewer switches between workers where
/// some that are tried come to it.
pub(crate) fn shorter(
    alloc: Global,
    p: &Checked,
    cfg: &Config,
    q: &Plain,
    found: Ordered,
) -> Result<Ordered, AllocError>
    requires settings { AreSettings cfg.now }
    requires found { LeadsTo p.now cfg.now q.now.state found.order found.outcome }
    ensures { IfOk result (λ r. LeadsTo p.now cfg.now q.now.state r.order r.outcome) }
{
    if found.order.len() > MOST_SHORTENED {
        return Ok(found);
    }
    let together = joined(alloc, p, cfg, q, found)?;
    cut(alloc, p, cfg, q, together)
}
