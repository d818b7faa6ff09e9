//! A pass over the threads of hands.

ghost use Rattle.std.specs.Prelude.{◌≡◌, ◌<◌, ◌+◌, ◌||◌, ℕ, IsSome, true, false};
ghost use Rattle.std.specs.List.{range_with_len};
ghost use Rattle.machine_types.specs.Core.{is_live_thread};
ghost use Rattle.table_rule.specs.Views.{held_in};
ghost use Rattle.table_runner.specs.Handed.{IsTableOf};
ghost use Rattle.green_runner.specs.Passes.{HasTakenTurn, HaveTurns};

use checked_program::Checked;
use table_runner::{CoreTable, Hands};

/// Whether one of two holds.
pub(crate) fn either(first: bool, second: bool) -> bool
    ensures { result ≡ (first || second) }
{
    first || second
}

/// A turn of thread `t`, which the hands hold: tells whether it was live.
fn take_turn(hands: &mut Hands, table: &CoreTable, p: &Checked, t: u8, turn: u32) -> bool
    requires table { IsTableOf table.now.table_id table.now.program
        table.now.cfg hands.old }
    requires program { p.now ≡ hands.old.program }
    requires held { IsSome (held_in hands.old.threads t) }
    requires some { 0 < turn }
    ensures live { result ≡ is_live_thread (held_in hands.old.threads t) }
    ensures still { result ≡ false → hands.new ≡ hands.old }
    ensures turn { HasTakenTurn turn t hands.old hands.new }
{
    for made in 0..turn {
        if !hands.event(table, p, t) {
            return made > 0;
        }
    }
    true
}

/// The same where they may not hold it.
fn give_turn(hands: &mut Hands, table: &CoreTable, p: &Checked, t: u8, turn: u32) -> bool
    requires table { IsTableOf table.now.table_id table.now.program
        table.now.cfg hands.old }
    requires program { p.now ≡ hands.old.program }
    requires some { 0 < turn }
    ensures live { result ≡ is_live_thread (held_in hands.old.threads t) }
    ensures still { result ≡ false → hands.new ≡ hands.old }
    ensures turn { HasTakenTurn turn t hands.old hands.new }
{
    if hands.holds(t) {
        take_turn(hands, table, p, t, turn)
    } else {
        false
    }
}

/// Gives each live thread of the hands, in order of numbers, `turn` events, or as many as it has
/// before it is not live: `false` exactly where none was live, and then nothing changes. It waits
/// for nobody and takes no memory.
pub fn pass(hands: &mut Hands, table: &CoreTable, p: &Checked, turn: u32) -> bool
    requires table { IsTableOf table.now.table_id table.now.program
        table.now.cfg hands.old }
    requires program { p.now ≡ hands.old.program }
    requires some { 0 < turn }
    ensures live { result ≡ true → (t : ℕ) × (is_live_thread (held_in hands.old.threads t) ≡ true) }
    ensures dead { result ≡ false → (t : ℕ) → is_live_thread (held_in hands.old.threads t) ≡ false }
    ensures still { result ≡ false → hands.new ≡ hands.old }
    ensures turns { HaveTurns turn (range_with_len 0 (p.now.program.workers + 1)) hands.old
        hands.new }
{
    hands.hold_no_more();
    let mut some = false;
    let count = p.workers() + 1;
    for t in 0..count {
        let live = give_turn(hands, table, p, t, turn);
        some = either(some, live);
    }
    some
}
