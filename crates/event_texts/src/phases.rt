//! What a thread does where it is no instruction, and to which monitor.

ghost use Rattle.std.specs.Prelude.{◌≡◌, ◌++◌, ◌∷◌, [], codes, OnOk};
ghost use Rattle.event_texts.specs.MonitorFacts.{monitor_fact};
ghost use Rattle.event_texts.specs.PhaseFacts.{does_to, phase_facts, plain_phase_text};
ghost use Rattle.run_texts.specs.Report.{end_text};
ghost use Rattle.tellings.specs.declared.facts.Fact.TheVariants.{Count as CountFact};
ghost use Rattle.tellings.specs.declared.facts.Fact.TheVariants.{Text as TextFact};
ghost use Rattle.tellings.specs.declared.keys.Key.TheVariants as keys;

use crate::monitors::{add_monitor, add_on_monitor};
use checked_program::Checked;
use jvm_types::{End, Rows};
use machine_types::Phase;
use run_texts::{EndText, name_of};
use std::alloc::{AllocError, Global};
use tellings::{Fact, Key, add_count, add_text, add_text_if};

/// What a thread of a phase does that has to do with no monitor, in words; nothing where it is an
/// instruction.
fn plain_phase_text(phase: Phase) -> &'static str
    ensures { result.now ≡ plain_phase_text phase }
{
    match phase {
        Phase::Idle => "idle",
        Phase::Start => "begins its next method",
        Phase::Element(_, None) => "loads the element",
        Phase::Element(_, Some(_)) => "stores the element",
        Phase::Made(_, _) => "stores the header",
        _ => "",
    }
}

/// Adds how a part came to its end.
pub fn add_end_text(
    facts: &mut Rows<Fact>,
    alloc: Global,
    key: Key,
    end: End,
) -> Result<(), AllocError>
    ensures { OnOk result (facts.new ≡ facts.old ++ TextFact key (end_text end) ∷ []) }
{
    let end = EndText(end);
    let mut words = String::new(alloc);
    write!(words, "{end}")?;
    add_text(facts, alloc, key, words.as_bytes())
}

fn add_does(
    facts: &mut Rows<Fact>,
    alloc: Global,
    c: &Checked,
    words: &[u8],
    m: u32,
) -> Result<(), AllocError>
    ensures { OnOk result (facts.new ≡ facts.old ++ does_to words.now c.now.program m) }
{
    add_on_monitor(facts, alloc, Key::Does, c, words, u64::from(m))
}

/// Adds that a lock is made fat.
fn add_fat_in(facts: &mut Rows<Fact>, alloc: Global, c: &Checked, m: u32) -> Result<(), AllocError>
    ensures { OnOk result (facts.new ≡ facts.old ++ TextFact keys.Does (codes "makes the lock of")
        ∷ monitor_fact c.now.program m ∷ TextFact keys.LockMade (codes "fat") ∷ []) }
{
    add_text(facts, alloc, Key::Does, b"makes the lock of")?;
    add_monitor(facts, alloc, c, u64::from(m))?;
    add_text(facts, alloc, Key::LockMade, b"fat")
}

/// Adds that a thread is woken.
fn add_notify_one(
    facts: &mut Rows<Fact>,
    alloc: Global,
    c: &Checked,
    m: u32,
    thread: u8,
) -> Result<(), AllocError>
    ensures { OnOk result (facts.new ≡ facts.old ++ TextFact keys.Does (codes "wakes")
        ∷ CountFact keys.Woken thread ∷ monitor_fact c.now.program m ∷ []) }
{
    add_text(facts, alloc, Key::Does, b"wakes")?;
    add_count(facts, Key::Woken, u64::from(thread))?;
    add_monitor(facts, alloc, c, u64::from(m))
}

/// Adds what a thread of a phase does, and to which monitor; nothing where it is an instruction.
pub fn add_phase(
    facts: &mut Rows<Fact>,
    alloc: Global,
    c: &Checked,
    phase: Phase,
) -> Result<(), AllocError>
    ensures { OnOk result (facts.new ≡ facts.old ++ phase_facts c.now.program phase) }
{
    match phase {
        Phase::Enter(m, _) => add_does(facts, alloc, c, b"enters", m),
        Phase::Acquire(m) => add_does(facts, alloc, c, b"looks at the lock of", m),
        Phase::Take(m, _) => add_does(facts, alloc, c, b"takes the lock of", m),
        Phase::Flag(m, _) => add_does(facts, alloc, c, b"flags the lock of", m),
        Phase::TakeFat(m, _) => add_does(facts, alloc, c, b"takes the fat lock of", m),
        Phase::Leave(m, _) => add_does(facts, alloc, c, b"leaves", m),
        Phase::Grow(m, _) => add_does(facts, alloc, c, b"draws a record for", m),
        Phase::FlatOut(m, _) => add_does(facts, alloc, c, b"frees the lock of", m),
        Phase::Own(m, _, _) => add_does(facts, alloc, c, b"owns the record for", m),
        Phase::WaitBit(m, _) => add_does(facts, alloc, c, b"begins to wait on", m),
        Phase::WaitOut(m, _) => add_does(facts, alloc, c, b"gives up", m),
        Phase::WaitLook(m, _, _) => add_does(facts, alloc, c, b"waits on", m),
        Phase::Retake(m, _, _) => add_does(facts, alloc, c, b"takes back", m),
        Phase::NotifyLook(m, _) => add_does(facts, alloc, c, b"looks who waits on", m),
        Phase::NotifyAll(m, _) => add_does(facts, alloc, c, b"wakes all from", m),
        Phase::FatIn(m, _, _) => add_fat_in(facts, alloc, c, m),
        Phase::NotifyOne(m, _, u) => add_notify_one(facts, alloc, c, m, u),
        Phase::Throw(_, class) => add_text(facts, alloc, Key::Throws, name_of(class).as_bytes()),
        Phase::Ending(end) => add_end_text(facts, alloc, Key::Ends, end),
        Phase::Ended(end) => add_end_text(facts, alloc, Key::Ended, end),
        _ => add_text_if(facts, alloc, Key::Does, plain_phase_text(phase).as_bytes()),
    }
}
