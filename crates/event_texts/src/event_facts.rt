//! An event of a run, and an end of a part that is no return, fact by fact.

ghost use Rattle.std.specs.Prelude.{◌≡◌, ◌++◌, ◌∷◌, [], ◌%◌, ◌/◌, codes, map, OnOk, IfOk};
ghost use Rattle.event_texts.specs.Acts.{listed};
ghost use Rattle.event_texts.specs.EventFacts.{access_facts, accessed_facts, attempt_facts};
ghost use Rattle.event_texts.specs.EventFacts.{end_facts, event_facts, head_facts};
ghost use Rattle.event_texts.specs.EventFacts.{holder_facts, inside_facts, left_out_facts};
ghost use Rattle.event_texts.specs.EventFacts.{lock_facts, mark_facts, more_facts, noted_facts};
ghost use Rattle.event_texts.specs.EventFacts.{share_facts};
ghost use Rattle.event_texts.specs.EventFacts.{event_end_in, event_spot_facts, owed_facts};
ghost use Rattle.event_texts.specs.EventFacts.{plain_key, stand_facts, standing_facts};
ghost use Rattle.event_texts.specs.EventFacts.{standing_in, stop_facts};
ghost use Rattle.event_texts.specs.EventFacts.{thread_facts, value_facts};
ghost use Rattle.event_texts.specs.Holders.{holder, lock_owner};
ghost use Rattle.event_texts.specs.Shares.{act_text};
ghost use Rattle.event_texts.specs.ValueTexts.{shared_value_text};
ghost use Rattle.run_texts.specs.Report.{end_text};
ghost use Rattle.tellings.specs.Forms.{told_in};
ghost use Rattle.tellings.specs.declared.facts.Fact.TheVariants.{Text as TextFact};
ghost use Rattle.tellings.specs.declared.facts.Fact.TheVariants.{Texts as TextsFact};

use crate::acts::Acts;
use crate::deeds::{add_deed, share_steps};
use crate::entries::{add_begin, add_entry};
use crate::phases::{add_end_text, add_phase};
use crate::share_texts::ActText;
use crate::shares::Share;
use crate::sights::{After, Before, Spot};
use crate::tops::add_top;
use crate::values::write_value;
use crate::word_facts::add_word;
use crate::words::SharedWord;
use checked_program::Checked;
use json_lines::Form;
use jvm_types::{Bytes, End, Program, Rows};
use machine_types::{Access, Act, AttemptHead, Phase};
use place_names::{Names, add_place};
use source_lines::Sources;
use std::alloc::{AllocError, Global};
use tellings::{Fact, Key, add_count, add_text, write_told};

// ---- which event it is, where its thread stands, and what it does where that is no instruction

fn add_inside(facts: &mut Rows<Fact>, attempt: Option<AttemptHead>) -> Result<(), AllocError>
    ensures { OnOk result (facts.new ≡ facts.old ++ inside_facts attempt) }
{
    match attempt {
        Some(a) => add_count(facts, Key::InAttempt, u64::from(a.number)),
        None => Ok(()),
    }
}

fn add_spot(
    facts: &mut Rows<Fact>,
    alloc: Global,
    c: &Checked,
    sources: &Sources,
    spot: Option<Spot>,
) -> Result<(), AllocError>
    ensures { OnOk result
        (facts.new ≡ facts.old ++ event_spot_facts c.now.program sources.now spot) }
{
    match spot {
        Some(spot) => add_place(facts, alloc, c, sources, spot.method, spot.pc),
        None => Ok(()),
    }
}

fn add_stand(
    facts: &mut Rows<Fact>,
    alloc: Global,
    c: &Checked,
    sources: &Sources,
    before: &Before,
) -> Result<(), AllocError>
    ensures { OnOk result
        (facts.new ≡ facts.old ++ stand_facts c.now.program sources.now before.now) }
{
    add_spot(facts, alloc, c, sources, before.spot)?;
    add_phase(facts, alloc, c, before.phase)
}

/// Adds which thread it is, the attempt that it is in, where it stands and what it does.
fn add_thread(
    facts: &mut Rows<Fact>,
    alloc: Global,
    c: &Checked,
    sources: &Sources,
    before: &Before,
) -> Result<(), AllocError>
    ensures { OnOk result
        (facts.new ≡ facts.old ++ thread_facts c.now.program sources.now before.now) }
{
    add_count(facts, Key::Thread, u64::from(before.thread))?;
    add_inside(facts, before.attempt)?;
    add_stand(facts, alloc, c, sources, before)
}

fn add_head(
    facts: &mut Rows<Fact>,
    alloc: Global,
    c: &Checked,
    sources: &Sources,
    number: u64,
    before: &Before,
) -> Result<(), AllocError>
    ensures { OnOk result
        (facts.new ≡ facts.old ++ head_facts c.now.program sources.now number before.now) }
{
    add_count(facts, Key::Number, number)?;
    add_thread(facts, alloc, c, sources, before)
}

/// Adds how many failed turns are left out before an event.
fn add_left_out(facts: &mut Rows<Fact>, failed_turns: u64) -> Result<(), AllocError>
    ensures { OnOk result (facts.new ≡ facts.old ++ left_out_facts failed_turns) }
{
    if failed_turns == 0 {
        Ok(())
    } else {
        add_count(facts, Key::FailedTurns, failed_turns)
    }
}

// ---- the word that it accesses, what it found there, and what it left there where it is no load

fn add_value(
    facts: &mut Rows<Fact>,
    alloc: Global,
    key: Key,
    p: &Program,
    word: SharedWord,
    n: u64,
) -> Result<(), AllocError>
    ensures { OnOk result
        (facts.new ≡ facts.old ++ TextFact key (shared_value_text p.now word n) ∷ []) }
{
    let mut words = Vec::new(alloc);
    write_value(&mut words, alloc, p, word, n)?;
    add_text(facts, alloc, key, words.as_slice())
}

fn add_values(
    facts: &mut Rows<Fact>,
    alloc: Global,
    p: &Program,
    before: &Before,
    after: &After,
    loads: bool,
) -> Result<(), AllocError>
    ensures { OnOk result
        (facts.new ≡ facts.old ++ value_facts p.now before.now after.now loads) }
{
    add_value(facts, alloc, Key::Found, p, before.word, before.found)?;
    if loads {
        return Ok(());
    }
    add_value(facts, alloc, Key::Left, p, before.word, after.left)
}

fn add_accessed(
    facts: &mut Rows<Fact>,
    alloc: Global,
    c: &Checked,
    names: &Rows<Bytes>,
    before: &Before,
    after: &After,
    loads: bool,
) -> Result<(), AllocError>
    ensures { OnOk result (facts.new ≡ facts.old
        ++ accessed_facts c.now.program names.now before.now after.now loads) }
{
    facts.push(Fact::Opens(Key::Access))?;
    add_word(facts, alloc, c, names, before.word)?;
    add_values(facts, alloc, c.program(), before, after, loads)?;
    facts.push(Fact::Closes)
}

fn add_access(
    facts: &mut Rows<Fact>,
    alloc: Global,
    c: &Checked,
    names: &Rows<Bytes>,
    before: &Before,
    after: &After,
) -> Result<(), AllocError>
    ensures { OnOk result (facts.new ≡ facts.old
        ++ access_facts c.now.program names.now before.now after.now before.now.access) }
{
    let loads = match before.access {
        None | Some(Access::Rest) => return Ok(()),
        Some(Access::Load(_)) => true,
        Some(_) => false,
    };
    add_accessed(facts, alloc, c, names, before, after, loads)
}

// ---- what becomes of attempts, locks and the part

fn add_noted(
    facts: &mut Rows<Fact>,
    key: Key,
    noted: Key,
    attempt: AttemptHead,
) -> Result<(), AllocError>
    ensures { OnOk result (facts.new ≡ facts.old ++ noted_facts key noted attempt) }
{
    add_count(facts, key, u64::from(attempt.number))?;
    add_count(facts, noted, attempt.noted)
}

fn add_attempt(
    facts: &mut Rows<Fact>,
    was: Option<AttemptHead>,
    now: Option<AttemptHead>,
    failed: bool,
) -> Result<(), AllocError>
    ensures { OnOk result (facts.new ≡ facts.old ++ attempt_facts was now failed) }
{
    match (was, now) {
        (None, Some(a)) => add_noted(facts, Key::AttemptBegins, Key::Noted, a),
        (Some(a), None) if failed => add_noted(facts, Key::AttemptFails, Key::Noted, a),
        (Some(a), None) => add_noted(facts, Key::AttemptFinishes, Key::NotedThere, a),
        _ => Ok(()),
    }
}

fn add_lock(
    facts: &mut Rows<Fact>,
    alloc: Global,
    locked: bool,
    inflated: bool,
) -> Result<(), AllocError>
    ensures { OnOk result (facts.new ≡ facts.old ++ lock_facts locked inflated) }
{
    match (locked, inflated) {
        (true, _) => add_text(facts, alloc, Key::LockMark, b"locked"),
        (false, true) => add_text(facts, alloc, Key::LockMark, b"inflated"),
        (false, false) => Ok(()),
    }
}

fn add_end(facts: &mut Rows<Fact>, alloc: Global, phase: Phase) -> Result<(), AllocError>
    ensures { OnOk result (facts.new ≡ facts.old ++ end_facts phase) }
{
    match phase {
        Phase::Ending(end) => add_end_text(facts, alloc, Key::ComesToEnd, end),
        _ => Ok(()),
    }
}

fn add_marks(
    facts: &mut Rows<Fact>,
    alloc: Global,
    before: &Before,
    after: &After,
) -> Result<(), AllocError>
    ensures { OnOk result (facts.new ≡ facts.old ++ mark_facts before.now after.now) }
{
    let was = before.counts;
    let now = after.counts;
    add_attempt(
        facts,
        before.attempt,
        after.attempt,
        was.failed < now.failed,
    )?;
    add_lock(
        facts,
        alloc,
        was.locked < now.locked,
        was.inflated < now.inflated,
    )?;
    add_end(facts, alloc, after.phase)
}

// ---- the plain steps that it stands for

fn act_words(alloc: Global, act: Act) -> Result<Bytes, AllocError>
    ensures { IfOk result (λ words. words ≡ act_text act) }
{
    let act = ActText(act);
    let mut words = String::new(alloc);
    write!(words, "{act}")?;
    Bytes::from_slice(alloc, words.as_bytes())
}

// At most two, in their order.
fn listed_words(
    alloc: Global,
    first: Option<Act>,
    second: Option<Act>,
) -> Result<Rows<Bytes>, AllocError>
    ensures { IfOk result (λ texts. texts ≡ map act_text (listed first second)) }
{
    let mut texts = Rows::new(alloc);
    match (first, second) {
        (None, _) => {}
        (Some(a), None) => texts.push(act_words(alloc, a)?)?,
        (Some(a), Some(b)) => {
            texts.push(act_words(alloc, a)?)?;
            texts.push(act_words(alloc, b)?)?;
        }
    }
    Ok(texts)
}

fn plain_key(first: Option<Act>, second: Option<Act>) -> Key
    ensures { result ≡ plain_key (listed first second) }
{
    match (first, second) {
        (Some(Act::Do), None) => Key::OneStep,
        _ => Key::Plain,
    }
}

fn steps_fact(alloc: Global, acts: &Acts) -> Result<Fact, AllocError>
    ensures { IfOk result
        (λ fact. fact ≡ TextsFact (plain_key acts.now) (map act_text acts.now)) }
{
    let (first, second) = acts.both();
    let texts = listed_words(alloc, first, second)?;
    Ok(Fact::Texts(plain_key(first, second), texts))
}

fn add_owed(facts: &mut Rows<Fact>, alloc: Global, owed: u64) -> Result<(), AllocError>
    ensures { OnOk result (facts.new ≡ facts.old ++ owed_facts owed) }
{
    if owed == 0 {
        facts.push(Fact::Texts(Key::Plain, Rows::new(alloc)))?;
        add_count(facts, Key::OwedNone, 0)
    } else {
        facts.push(Fact::Texts(Key::OneStep, Rows::new(alloc)))?;
        add_count(facts, Key::Owed, owed)
    }
}

fn add_share(facts: &mut Rows<Fact>, alloc: Global, share: &Share) -> Result<(), AllocError>
    ensures { OnOk result (facts.new ≡ facts.old ++ share_facts share.now) }
{
    match share {
        Share::Steps(acts) => facts.push(steps_fact(alloc, acts)?),
        Share::Owes(owed) => add_owed(facts, alloc, *owed),
        Share::Section(owed) => {
            let texts = listed_words(alloc, Some(Act::Enter), Some(Act::Exit))?;
            facts.push(Fact::Texts(Key::OneStep, texts))?;
            add_count(facts, Key::Between, *owed)
        }
    }
}

// ---- the whole

/// Adds what an event does besides: a print or a notification, an entry, a begin; and what it
/// computed.
fn add_more(
    facts: &mut Rows<Fact>,
    alloc: Global,
    c: &Checked,
    before: &Before,
    share: &Share,
    after: &After,
) -> Result<(), AllocError>
    ensures { OnOk result
        (facts.new ≡ facts.old ++ more_facts c.now before.now share.now after.now) }
{
    add_deed(facts, alloc, c, before.effect, share_steps(share))?;
    add_entry(facts, alloc, c, before.phase, before.frame_spot)?;
    add_begin(facts, alloc, c.program(), before.phase, after.spot)?;
    add_top(facts, alloc, c, before, after)
}

/// The facts of an event of a number, behind so many failed turns that are left out: which it is,
/// where its thread stands and what it does, the word that it accesses, what becomes of attempts,
/// locks and the part, and what it stands for in the plain machine.
pub(crate) fn event_facts(
    alloc: Global,
    c: &Checked,
    names: &Names,
    number: u64,
    failed_turns: u64,
    before: &Before,
    share: &Share,
    after: &After,
) -> Result<Rows<Fact>, AllocError>
    ensures { IfOk result (λ facts. facts
        ≡ event_facts c.now names.now number failed_turns before.now share.now after.now) }
{
    let mut facts = Rows::new(alloc);
    add_head(&mut facts, alloc, c, &names.sources, number, before)?;
    add_left_out(&mut facts, failed_turns)?;
    add_more(&mut facts, alloc, c, before, share, after)?;
    add_access(&mut facts, alloc, c, &names.fields, before, after)?;
    add_marks(&mut facts, alloc, before, after)?;
    add_share(&mut facts, alloc, share)?;
    Ok(facts)
}

/// Adds the line, or the object, of an event.
pub fn write_event(
    text: &mut Vec<u8>,
    alloc: Global,
    form: Form,
    c: &Checked,
    names: &Names,
    number: u64,
    failed_turns: u64,
    before: &Before,
    share: &Share,
    after: &After,
) -> Result<(), AllocError>
    ensures { OnOk result (text.new.items ≡ text.old.items ++ told_in form (codes "event")
        (event_facts c.now names.now number failed_turns before.now share.now after.now)) }
{
    let facts = event_facts(alloc, c, names, number, failed_turns, before, share, after)?;
    write_told(text, alloc, form, "event", facts.as_slice())
}

// ---- how a thread stands

fn standing_facts(
    alloc: Global,
    c: &Checked,
    sources: &Sources,
    number: u64,
    before: &Before,
) -> Result<Rows<Fact>, AllocError>
    ensures { IfOk result
        (λ facts. facts ≡ standing_facts c.now.program sources.now number before.now) }
{
    let mut facts = Rows::new(alloc);
    add_count(&mut facts, Key::BeforeNumber, number)?;
    add_thread(&mut facts, alloc, c, sources, before)?;
    Ok(facts)
}

/// Adds the line, or the object, of how a thread stands before the event of a number, where the
/// thread has begun; else nothing.
pub fn write_standing(
    text: &mut Vec<u8>,
    alloc: Global,
    form: Form,
    c: &Checked,
    sources: &Sources,
    number: u64,
    before: &Before,
) -> Result<(), AllocError>
    ensures { OnOk result (text.new.items ≡ text.old.items
        ++ standing_in form c.now.program sources.now number before.now before.now.phase) }
{
    if before.phase == Phase::Idle {
        return Ok(());
    }
    let facts = standing_facts(alloc, c, sources, number, before)?;
    write_told(text, alloc, form, "before", facts.as_slice())
}

// ---- an end

/// The thread that a lock word names, by its number and 1; 0 where it names none.
fn lock_owner(word: u64) -> u64
    ensures { result ≡ lock_owner (word % 4) (word / 4) }
{
    match word % 4 {
        0 | 1 => 0,
        _ => word / 4,
    }
}

/// The same of the thread that held the monitor for which a thread had made all its turns.
fn holder(end: End, before: &Before) -> u64
    ensures { result ≡ holder end before.now }
{
    match (end, before.word) {
        (End::Turns, SharedWord::Lock(_)) => lock_owner(before.found),
        (End::Turns, SharedWord::Owner(_, _)) => before.found,
        _ => 0,
    }
}

fn add_holder(facts: &mut Rows<Fact>, holder: u64) -> Result<(), AllocError>
    ensures { OnOk result (facts.new ≡ facts.old ++ holder_facts holder) }
{
    if holder == 0 {
        Ok(())
    } else {
        add_count(facts, Key::HeldBy, holder - 1)
    }
}

fn stop_facts(
    alloc: Global,
    c: &Checked,
    sources: &Sources,
    number: u64,
    before: &Before,
    end: End,
) -> Result<Rows<Fact>, AllocError>
    ensures { IfOk result
        (λ facts. facts ≡ stop_facts c.now.program sources.now number before.now end) }
{
    let mut facts = Rows::new(alloc);
    add_end_text(&mut facts, alloc, Key::End, end)?;
    add_head(&mut facts, alloc, c, sources, number, before)?;
    add_holder(&mut facts, holder(end, before))?;
    Ok(facts)
}

fn write_stop(
    text: &mut Vec<u8>,
    alloc: Global,
    form: Form,
    c: &Checked,
    sources: &Sources,
    number: u64,
    before: &Before,
    end: End,
) -> Result<(), AllocError>
    ensures { OnOk result (text.new.items ≡ text.old.items ++ told_in form (codes "end")
        (stop_facts c.now.program sources.now number before.now end)) }
{
    let facts = stop_facts(alloc, c, sources, number, before, end)?;
    write_told(text, alloc, form, "end", facts.as_slice())
}

/// The same of the end that an event led to, by the phase behind it, where that is no return; else
/// nothing.
pub fn write_event_end(
    text: &mut Vec<u8>,
    alloc: Global,
    form: Form,
    c: &Checked,
    sources: &Sources,
    number: u64,
    before: &Before,
    behind: Phase,
) -> Result<(), AllocError>
    ensures { OnOk result (text.new.items ≡ text.old.items
        ++ event_end_in form c.now.program sources.now number before.now behind) }
{
    match behind {
        Phase::Ending(End::Returned) => Ok(()),
        Phase::Ending(end) => write_stop(text, alloc, form, c, sources, number, before, end),
        _ => Ok(()),
    }
}
