//! What an event stands for in the plain machine, as text.

use machine_types::Act;
use std::fmt;

/// Displays an act.
#[derive(Clone, Copy)]
pub struct ActText(pub Act);

impl fmt::Display for ActText {
    ghost use Rattle.std.specs.Prelude.{Some};
    ghost use Rattle.event_texts.specs.Shares.{act_text};

    ghost output = { λ a. Some (act_text a.0) };

    fn fmt<W: fmt::Write>(&self, f: &mut fmt::Formatter<W>) -> fmt::Result {
        match self.0 {
            Act::Begin => f.write_str("begin"),
            Act::Do => f.write_str("do"),
            Act::Enter => f.write_str("enter"),
            Act::Exit => f.write_str("exit"),
            Act::Wait => f.write_str("wait"),
            Act::Notify(None) => f.write_str("notify nobody"),
            Act::Notify(Some(u)) => write!(f, "notify thread {u}"),
            Act::NotifyAll => f.write_str("notify all"),
            Act::Retake => f.write_str("retake"),
        }
    }
}
