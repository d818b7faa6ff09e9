//! Steps that touch a thread alone.

ghost use Rattle.std.specs.Prelude.{◌≡◌, true};
ghost use Rattle.machine_types.specs.Frames.{top_of};
ghost use Rattle.plain_orders.specs.LocalSteps.{gone_alone, is_there};
ghost use Rattle.plain_search.specs.Alone.{is_alone_by};

use checked_program::Checked;
use jvm_types::flags::is_synchronized;
use machine_types::Effect;
use plain_frames::{At, effect_at, top_of};
use plain_threads::{Status, Thread};

/// Whether an effect touches the thread alone, and is no jump back.
fn is_alone_by(p: &Checked, at: &At, effect: Effect) -> bool
    ensures { result ≡ true → is_alone_by p.now.program at.now effect ≡ true }
{
    match effect {
        Effect::Goes(to, _) => to > at.frame().pc(),
        Effect::Throws(_) | Effect::Enters(_) => true,
        Effect::Calls(number) => p.program().methods.get(number as usize).is_some(),
        Effect::Returns => !is_synchronized(at.method().flags) && at.caller(p).is_some(),
        _ => false,
    }
}

/// Whether the next step of a thread touches it alone, and is no jump back.
pub(crate) fn is_local(p: &Checked, x: &Thread) -> bool
    ensures { result ≡ true → is_there (gone_alone p.now.program x.now) ≡ true }
{
    let at = match top_of(p, x.frames()) {
        Some(at) => at,
        None => return false,
    };
    match x.status() {
        Status::Run => is_alone_by(p, &at, effect_at(p, &at)),
        Status::Throw(_, _) => x.frames().len() > 1,
        _ => false,
    }
}
