//! The check of an attempt, before an instruction or a thrown exception does its work.

ghost use Rattle.std.specs.Prelude.{◌≡◌};
ghost use Rattle.machine_types.specs.Elision.{if_same};
ghost use Rattle.instr_steps.specs.Effecting.{CanFail, passes};

use elided_section::{Checkup, check, fail};
use frames::ThreadState;

/// Whether the lock word that was found is as the attempt noted it, where there is one. Where it is
/// not, the attempt fails.
#[inline(always)]
pub fn passes(s: &mut ThreadState, got: u64) -> bool
    requires { CanFail s.old }
    ensures pass { result ≡ passes s.old.attempt got }
    ensures state { s.new ≡ if_same s.old s.old.attempt got s.old }
{
    if s.attempt().is_none() {
        return true;
    }
    // a count of failures is at most that of instructions, which a `u32` limits
    let _most = s.config().steps;
    match check(s, got) {
        Checkup::Same => true,
        Checkup::Differs { noted, found } => {
            fail(s, noted, found);
            false
        }
    }
}
