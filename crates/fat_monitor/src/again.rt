//! A monitor that a thread holds is entered again, or left once but not for the last time (JVMS
//! 2.11.10).

ghost use Rattle.std.specs.Prelude.{◌≡◌, ◌<◌, Some};
ghost use Rattle.machine_types.specs.Going.{goes_after, runs};
ghost use Rattle.machine_types.specs.HeldMonitors.{deeper, held_at, shallower, with_held};
ghost use Rattle.fat_monitor.specs.Answering.{CanGoOn};

use checked_program::Checked;
use frames::{ThreadState, runs};
use instr_steps::go_after;
use machine_types::{After, Held};

/// The entry of a monitor that the thread holds has another depth.
pub fn put_depth(s: &mut ThreadState, monitor: u32, held: Held, depth: u64)
    requires { held_at s.old.held monitor ≡ Some held }
    ensures { s.new ≡ record s.old { held = with_held (record held { depth = depth }) s.old.held } }
{
    s.put_held(Held { depth, ..held });
}

/// One entry more.
pub fn enter_again(s: &mut ThreadState, monitor: u32, held: Held)
    requires held { held_at s.old.held monitor ≡ Some held }
    requires depth { held.depth < 18446744073709551615 }
    ensures { s.new ≡ runs (record s.old { held = with_held (deeper held) s.old.held }) }
{
    put_depth(s, monitor, held, held.depth + 1);
    runs(s);
}

/// One entry less, which is not the last.
pub fn exit_once(s: &mut ThreadState, p: &Checked, monitor: u32, held: Held, after: After)
    requires held { held_at s.old.held monitor ≡ Some held }
    requires depth { 1 < held.depth }
    requires program { p.now ≡ s.old.program }
    requires onward { CanGoOn p.now s.old after }
    ensures { s.new ≡ goes_after p.now.program
        (record s.old { held = with_held (shallower held) s.old.held }) after }
{
    put_depth(s, monitor, held, held.depth - 1);
    go_after(s, p, after);
}
