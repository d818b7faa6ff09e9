//! A monitor as a fact.

ghost use Rattle.std.specs.Prelude.{◌≡◌, ◌<◌, ◌++◌, ◌∷◌, [], IfSome, IfOk, OnOk};
ghost use Rattle.event_texts.specs.MonitorFacts.{file_of_object, monitor_fact, on_monitor};

use checked_program::Checked;
use jvm_types::class_numbers::file_class;
use jvm_types::limits::MOST_FILES;
use jvm_types::{Bytes, Rows};
use run_texts::write_class;
use std::alloc::{AllocError, Global};
use tellings::{Fact, Key, add_text};

/// The file whose class a reference stands for.
fn file_of_object(c: &Checked, m: u64) -> Option<usize>
    ensures file { result ≡ file_of_object c.now.program m }
    ensures few { IfSome result (λ file. file < MOST_FILES) }
{
    let files = c.program().names.len();
    (0..files).find(
        |&file|
            requires { file < MOST_FILES }
        { u64::from(c.class_word(file as u16)) == m },
    )
}

/// A monitor: that of a class by its name (JVMS 2.11.10), any other one by the number of its
/// object.
fn monitor_fact(alloc: Global, c: &Checked, m: u64) -> Result<Fact, AllocError>
    ensures { IfOk result (λ fact. fact ≡ monitor_fact c.now.program m) }
{
    match file_of_object(c, m) {
        Some(file) => {
            let mut name = Vec::new(alloc);
            write_class(&mut name, c.program(), file_class(file))?;
            Ok(Fact::Text(Key::MonitorClass, Bytes::from_vec(name)))
        }
        None => Ok(Fact::Count(Key::Monitor, m)),
    }
}

/// Adds a monitor.
pub fn add_monitor(
    facts: &mut Rows<Fact>,
    alloc: Global,
    c: &Checked,
    m: u64,
) -> Result<(), AllocError>
    ensures { OnOk result (facts.new ≡ facts.old ++ monitor_fact c.now.program m ∷ []) }
{
    facts.push(monitor_fact(alloc, c, m)?)
}

/// Adds words, and then a monitor.
#[tactic(auto, unfolding(crate::specs::MonitorFacts::on_monitor))]
pub fn add_on_monitor(
    facts: &mut Rows<Fact>,
    alloc: Global,
    key: Key,
    c: &Checked,
    words: &[u8],
    m: u64,
) -> Result<(), AllocError>
    ensures { OnOk result (facts.new ≡ facts.old ++ on_monitor key words.now c.now.program m) }
{
    add_text(facts, alloc, key, words)?;
    add_monitor(facts, alloc, c, m)
}
