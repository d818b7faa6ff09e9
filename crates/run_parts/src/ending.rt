//! The end of a run.

ghost use Rattle.std.specs.Prelude.{◌≡◌, [], ◌∷◌};
ghost use Rattle.machine_types.specs.Core.{done_end};

use frames::ThreadState;
use jvm_types::End;

/// How `done` ended, by thread 0: not run, where it has not begun or has not ended.
pub fn done_end(first: &ThreadState) -> End
    ensures { result ≡ done_end (first.now ∷ []) }
{
    if first.part() < 2 {
        return End::NotRun;
    }
    first.end().unwrap_or(End::NotRun)
}
