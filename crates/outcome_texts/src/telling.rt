//! The outcomes of a program, searched for and written.

ghost use Rattle.std.specs.Prelude.{◌≡◌, ◌≤◌, ◌++◌, IfOk, OnOk};
ghost use Rattle.std.specs.List.{list_any};
ghost use Rattle.machine_types.specs.Settings.{AreSettings};
ghost use Rattle.outcome_texts.specs.declared.telling.TheConstants.{MOST_STATES};
ghost use Rattle.outcome_texts.specs.AllFacts.{judged_text, outcomes_text as the_outcomes_text};
ghost use Rattle.outcome_texts.specs.Telling.{AreOutcomesWritten, AreOutcomesReady, verdict_by};
ghost use Rattle.outcome_texts.specs.Telling.{verdict_of as the_verdict};

use crate::all::write_all;
use crate::expectations::write_expectation;
use crate::findings::Forbidden;
use crate::found_texts::write_all_forbidden;
use crate::outcome::write_outcomes;
use checked_program::Checked;
use host_io::sink::{Sink, SinkFailed};
use host_io::writing::write_whole;
use json_lines::Form;
use jvm_types::Bytes;
use machine_types::Config;
use outcomes::{MOST_OUTCOME_STATES, Outcomes, Watch, find_outcomes};
use source_lines::Sources;
use std::alloc::{AllocError, Global};

/// The most states that may be searched.
pub const MOST_STATES: u32 = MOST_OUTCOME_STATES;

/// Why the outcomes were not written whole.
#[derive(Clone, Copy, Debug, PartialEq, Eq)]
pub enum OutcomesError {
    /// There was no memory.
    Memory,
    /// The sink failed.
    Failed,
}

/// What the outcomes come to.
#[derive(Clone, Copy, Debug, PartialEq, Eq)]
pub enum Verdict {
    /// All orders were tried, and nothing was found that no run is to do, or that is not expected.
    NoOther,
    /// Something was found that no run is to do.
    Found,
    /// Nothing such was found, but an outcome that is not expected.
    Unexpected,
    /// Neither was found, and not all orders were tried.
    Unknown,
}

/// What is told of outcomes, and what they come to.
#[derive(Drop)]
pub struct Told {
    pub text: Vec<u8>,
    pub verdict: Verdict,
}

/// What outcomes come to.
fn verdict_of(is_found: bool, is_unexpected: bool, is_whole: bool) -> Verdict
    ensures { result ≡ verdict_by is_found is_unexpected is_whole }
{
    match (is_found, is_unexpected, is_whole) {
        (true, _, _) => Verdict::Found,
        (false, true, _) => Verdict::Unexpected,
        (false, false, true) => Verdict::NoOther,
        (false, false, false) => Verdict::Unknown,
    }
}

/// Adds what was found that no run is to do, and what is not expected, and answers what the
/// outcomes come to.
fn write_judged(
    out: &mut Vec<u8>,
    alloc: Global,
    form: Form,
    p: &Checked,
    o: &Outcomes,
    forbidden: &[Forbidden],
    file: &Option<Bytes>,
) -> Result<Verdict, AllocError>
    ensures text { OnOk result (out.new.items
        ≡ out.old.items ++ judged_text form p.now.program o.now forbidden.now file.now) }
    ensures verdict { IfOk result
        (λ verdict. verdict ≡ the_verdict p.now.program o.now forbidden.now file.now) }
{
    let found = write_all_forbidden(out, alloc, form, p, o, forbidden)?;
    let unexpected = write_expectation(out, alloc, form, p, o, file)?;
    Ok(verdict_of(found, unexpected, o.is_whole))
}

/// What is told of outcomes.
fn told_of(
    alloc: Global,
    form: Form,
    p: &Checked,
    sources: &Sources,
    o: &Outcomes,
    forbidden: &[Forbidden],
    file: &Option<Bytes>,
) -> Result<Told, AllocError>
    ensures text { IfOk result (λ told. told.text.items
        ≡ the_outcomes_text form p.now.program sources.now o.now forbidden.now file.now) }
    ensures verdict { IfOk result
        (λ told. told.verdict ≡ the_verdict p.now.program o.now forbidden.now file.now) }
{
    let mut text = Vec::new(alloc);
    write_outcomes(&mut text, alloc, form, p, sources, o.listed.as_slice())?;
    write_all(&mut text, alloc, form, o)?;
    let verdict = write_judged(&mut text, alloc, form, p, o, forbidden, file)?;
    Ok(Told { text, verdict })
}

/// What is told of the outcomes of a program.
fn make_told<W: Watch>(
    alloc: Global,
    form: Form,
    p: &Checked,
    cfg: &Config,
    sources: &Sources,
    states: u32,
    forbidden: &[Forbidden],
    file: &Option<Bytes>,
    watch: &mut W,
) -> Result<Told, AllocError>
    requires settings { AreSettings cfg.now }
    requires states { states ≤ MOST_STATES }
    ensures { IfOk result (AreOutcomesReady form p.now cfg.now sources.now forbidden.now
        file.now) }
{
    let o = find_outcomes(alloc, p, cfg, states, watch)?;
    told_of(alloc, form, p, sources, &o, forbidden, file)
}

/// Searches for all that the runs of a program come to, until more than so many states are found,
/// and writes it to a sink: each outcome with an order of a run by these settings, or with steps;
/// the printed numbers; whether there is no other; what was found of that which no run is to do;
/// and, where a file of expected outcomes is given, lines of an earlier text, what differs from it.
/// Who watches it is told how far the search has come. It answers what the outcomes come to.
pub fn explain_outcomes<W: Watch, K: Sink>(
    alloc: Global,
    form: Form,
    p: &Checked,
    cfg: &Config,
    sources: &Sources,
    states: u32,
    forbidden: &[Forbidden],
    file: &Option<Bytes>,
    watch: &mut W,
    sink: &mut K,
) -> Result<Verdict, OutcomesError>
    requires settings { AreSettings cfg.now }
    requires states { states ≤ MOST_STATES }
    ensures { AreOutcomesWritten form p.now cfg.now sources.now forbidden.now file.now
        (K.text sink.old) (K.text sink.new) (K.faults sink.old) (K.faults sink.new) result }
{
    match make_told(alloc, form, p, cfg, sources, states, forbidden, file, watch) {
        Ok(told) => match write_whole(sink, told.text.as_slice()) {
            Ok(()) => Ok(told.verdict),
            Err(SinkFailed) => Err(OutcomesError::Failed),
        },
        Err(AllocError) => Err(OutcomesError::Memory),
    }
}
