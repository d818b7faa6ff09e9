//! The search.

ghost use Rattle.std.specs.Prelude.{◌≡◌, ◌≢◌, ◌<◌, ◌≤◌, ◌+◌, ◌^◌, [], true, false, length, IfOk};
ghost use Rattle.plain_search.specs.Searched.{AreTaken, IsSearched, IsSoundSearch};
ghost use Rattle.plain_search.specs.declared.searching.TheConstants.{MOST_STATES};

use crate::found::Found;
use crate::nexts::next_rows;
use crate::row::{Gathered, Row};
use crate::rows::{add, add_all};
use crate::watching::{Unwatched, Watch};
use checked_program::Checked;
use history_rule::{Plain, plain_start};
use machine_types::{Act, PlainStep};
use std::alloc::{AllocError, Global};

/// The most states that a search may be asked for.
pub const MOST_STATES: u32 = 10_000_000;

/// Whether there is room for the numbers of one step more and its local steps.
fn has_room(q: &Plain) -> bool
    ensures few { result ≡ true → q.now.steps + 1001 ≤ 2 ^ 40 }
    ensures threads { result ≡ true → length q.now.state.threads ≤ 256 }
{
    q.steps() <= 1_099_511_626_775 && q.threads().len() <= 256
}

/// Whether there is no row.
fn are_none(rows: &Vec<Row>) -> bool
    ensures none { result ≡ true → rows.now.items ≡ [] }
    ensures some { result ≡ false → rows.now.items ≢ [] }
{
    match rows.as_slice() {
        [] => true,
        _ => false,
    }
}

/// Adds the states that come next behind a row. `false`: there is no room for their numbers.
fn take_up(alloc: Global, p: &Checked, s: &mut Gathered, i: u32) -> Result<bool, AllocError>
    requires place { i < length s.old.rows.items }
    requires sound { IsSoundSearch p.now s.old }
    ensures sound { IsSoundSearch p.now s.new }
    ensures taken { IfOk result
        (λ b. b ≡ true → AreTaken p.now s.old i → AreTaken p.now s.new (i + 1)) }
{
    let q = &s.rows[i as usize].plain;
    if !has_room(q) {
        return Ok(false);
    }
    let rows = next_rows(alloc, p, q, i)?;
    if are_none(&rows) {
        s.rests.push(i)?;
        return Ok(true);
    }
    add_all(p, &mut s.rows, &mut s.table, rows)?;
    Ok(true)
}

/// The search at its start.
fn start(alloc: Global, p: &Checked, most: u32) -> Result<Gathered, AllocError>
    requires { most ≤ MOST_STATES }
    ensures sound { IfOk result (IsSoundSearch p.now) }
    ensures taken { IfOk result (λ s. AreTaken p.now s 0) }
{
    let mut rows = Vec::new(alloc);
    let rests = Vec::new(alloc);
    let mut table = vec![in alloc; 0u64; 2 * most as usize + 2]?;
    let plain = plain_start(alloc, p)?;
    let step = PlainStep {
        thread: 0,
        act: Act::Begin,
    };
    let first = Row {
        plain,
        from: 0,
        step,
        locals: 0,
    };
    add(&mut rows, &mut table, first)?;
    Ok(Gathered { rows, rests, table })
}

/// Of each so many states it is told how far the search has come.
const STATES_A_TELLING: u32 = 1024;

/// Tells how far a search has come, that has taken up so many states.
fn tell_of<W: Watch>(watch: &mut W, states: usize, taken: u32) {
    if taken % STATES_A_TELLING == 0 && states > taken as usize {
        watch.tell(states, states - taken as usize);
    }
}

/// The search, of which it is told how far it has come.
#[tactic(auto, using(crate::proofs::TakenRows::all_taken))]
fn search_on<W: Watch>(
    alloc: Global,
    p: &Checked,
    most: u32,
    watch: &mut W,
) -> Result<Found, AllocError>
    requires { most ≤ MOST_STATES }
    ensures own { IfOk result (λ f. f.program ≡ p.now) }
    ensures searched { IfOk result IsSearched }
{
    let mut s = start(alloc, p, most)?;
    for i in 0..most + 1 {
        if i as usize >= s.rows.len() {
            return Ok(Found::whole(p, s));
        }
        if s.rows.len() > most as usize {
            return Ok(Found::part(p, s));
        }
        tell_of(watch, s.rows.len(), i);
        match take_up(alloc, p, &mut s, i) {
            Ok(true) => (),
            _ => return Ok(Found::part(p, s)),
        }
    }
    Ok(Found::part(p, s))
}

/// The same as `search`; who watches it is told how far it has come.
pub fn watched_search<W: Watch>(
    alloc: Global,
    p: &Checked,
    most: u32,
    watch: &mut W,
) -> Result<Found, AllocError>
    requires { most ≤ MOST_STATES }
    ensures own { IfOk result (λ f. f.program ≡ p.now) }
    ensures searched { IfOk result IsSearched }
{
    let found = search_on(alloc, p, most, watch);
    watch.end();
    found
}

/// Searches the states that a program's plain machine comes to, in any order of its steps, until
/// there are no more, or more than `most`, or no memory is left. An error: there was no memory for
/// the start.
pub fn search(alloc: Global, p: &Checked, most: u32) -> Result<Found, AllocError>
    requires { most ≤ MOST_STATES }
    ensures own { IfOk result (λ f. f.program ≡ p.now) }
    ensures searched { IfOk result IsSearched }
{
    watched_search(alloc, p, most, &mut Unwatched)
}
