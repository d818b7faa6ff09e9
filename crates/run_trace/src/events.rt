//! One event of a run with its line, and the begin of a part with its own.

ghost use Rattle.std.specs.Prelude.{◌≡◌, ◌<◌, ◌++◌, ◌&&◌, [], true, length, slice_get, slice_set};
ghost use Rattle.std.specs.Prelude.{IfOk, OnOk};
ghost use Rattle.std.specs.Option.{option_map};
ghost use Rattle.machine_types.specs.Core.{NextPart, Of, event, lives, next};
ghost use Rattle.laws_states.specs.WorkLeft.{all_work};
ghost use Rattle.machine_types.specs.Accesses.{found_by};
ghost use Rattle.run_trace.specs.EventLines.{end_between, event_end, line_between, part_facts};
ghost use Rattle.run_trace.specs.EventLines.{part_line, part_name, part_text, standing_of};
ghost use Rattle.run_trace.specs.EventLines.{standings, before_at, told_line};
ghost use Rattle.run_trace.specs.FailedTurns.{is_left_out, left_out};
ghost use Rattle.run_trace.specs.Lines.{has_standings, is_shown, put_text, shown_behind};
ghost use Rattle.run_trace.specs.Lines.{standings_due};
ghost use Rattle.run_trace.specs.Owing.{owed_after, owed_at, seen_by};
ghost use Rattle.run_trace.specs.Stands.{stands_after};

use crate::stands::{Seen, Stand, is_failed_turn, settle_stand, stand_at};
use checked_program::Checked;
use event_texts::{
    Before, owed_behind, see_after, see_before, share_of, write_event, write_event_end,
    write_standing,
};
use json_lines::Form;
use jvm_types::{Bytes, Rows};
use machine_types::Access;
use place_names::Names;
use replay_runner::Machine;
use std::alloc::{AllocError, Global};
use step_core::want;
use tellings::{Fact, Key, add_count, add_text, write_told};

/// Which lines of a run are told: those from the event of a number on, so many at most, where the
/// first event has the number 1; and whether failed turns in a row are folded, so that the first of
/// them alone is told. And in which form they are told, with the ends and the report behind them.
#[derive(Clone, Copy, Debug, PartialEq, Eq)]
pub struct Part {
    pub from: u64,
    pub count: u64,
    pub folds: bool,
    pub form: Form,
}

/// Whether the line of that number is one of the part, behind so many.
fn is_shown(part: Part, shown: u64, number: u64) -> bool
    ensures { result ≡ is_shown part shown number }
{
    part.from <= number && shown < part.count
}

/// Whether it is the first, and need not be the first of all.
fn has_standings(part: Part, shown: u64) -> bool
    ensures { result ≡ has_standings part shown }
{
    shown == 0 && 1 < part.from
}

/// What an access finds in its word; 0 where there is none.
#[tactic(auto, using(crate::proofs::FoundWords::word_read))]
fn found_in(machine: &Machine, access: Option<Access>) -> u64
    ensures { result ≡ found_by machine.now.core.words access }
{
    match access {
        None | Some(Access::Rest) => 0,
        Some(Access::Load(word)) => machine.word(word),
        Some(Access::Store(word, _)) => machine.word(word),
        Some(Access::Cas(word, _, _)) => machine.word(word),
        Some(Access::Add(word, _)) => machine.word(word),
        Some(Access::Or(word, _)) => machine.word(word),
        Some(Access::And(word, _)) => machine.word(word),
    }
}

/// How many steps a thread owes.
fn owed_at(owed: &Rows<u64>, t: u8) -> u64
    ensures { result ≡ owed_at owed.now t }
{
    match owed.get(t as usize) {
        Some(steps) => *steps,
        None => 0,
    }
}

/// How a thread stands, and what its next event accesses.
fn before_at(machine: &Machine, p: &Checked, stands: &Rows<Stand>, t: u8) -> Option<Before>
    requires { p.now ≡ machine.now.program }
    ensures { result ≡ before_at p.now machine.now.core stands.now t }
{
    match machine.thread(t) {
        Some(s) => {
            let access = want(s, p);
            let found = found_in(machine, access);
            Some(see_before(s, p, stand_at(stands, t).last, access, found))
        }
        None => None,
    }
}

/// A thread before its event.
fn look(
    machine: &Machine,
    p: &Checked,
    owed: &Rows<u64>,
    stands: &Rows<Stand>,
    t: u8,
) -> Option<Seen>
    requires { p.now ≡ machine.now.program }
    ensures { result ≡ seen_by p.now machine.now.core owed.now stands.now (Of t) }
{
    match machine.thread(t) {
        Some(s) => {
            let access = want(s, p);
            let found = found_in(machine, access);
            let stand = stand_at(stands, t);
            Some(Seen {
                before: see_before(s, p, stand.last, access, found),
                share: share_of(s, p, found, owed_at(owed, t)),
                turns: s.turns(),
                row: stand.row,
            })
        }
        None => None,
    }
}

/// Adds how a thread stands before the event of a number.
fn write_standing_of(
    text: &mut Vec<u8>,
    alloc: Global,
    form: Form,
    p: &Checked,
    names: &Names,
    number: u64,
    before: Option<Before>,
) -> Result<(), AllocError>
    ensures { OnOk result (text.new.items ≡ text.old.items
        ++ standing_of p.now form names.now number before) }
{
    match before {
        Some(before) => { write_standing(text, alloc, form, p, &names.sources, number, &before) }
        None => Ok(()),
    }
}

/// Adds how all threads stand before the event of a number.
#[tactic(auto, using(crate::proofs::OneMore::standings_more))]
fn write_standings(
    text: &mut Vec<u8>,
    alloc: Global,
    form: Form,
    machine: &Machine,
    stands: &Rows<Stand>,
    p: &Checked,
    names: &Names,
    number: u64,
) -> Result<(), AllocError>
    requires { p.now ≡ machine.now.program }
    ensures { OnOk result (text.new.items ≡ text.old.items ++ standings p.now form names.now number
        machine.now.core stands.now (length machine.now.core.threads)) }
{
    for t in 0..machine.workers() + 1 {
        let before = before_at(machine, p, stands, t);
        write_standing_of(text, alloc, form, p, names, number, before)?;
    }
    Ok(())
}

/// The same where the event has a line that is shown behind so many, and that line begins a part
/// which need not begin with the first event.
fn write_standings_due(
    text: &mut Vec<u8>,
    alloc: Global,
    part: Part,
    shown: u64,
    machine: &Machine,
    stands: &Rows<Stand>,
    p: &Checked,
    names: &Names,
    number: u64,
) -> Result<(), AllocError>
    requires { p.now ≡ machine.now.program }
    ensures { OnOk result (is_shown part shown number ≡ true → text.new.items ≡ text.old.items
        ++ standings_due part shown (standings p.now part.form names.now number
        machine.now.core stands.now (length machine.now.core.threads))) }
{
    if is_shown(part, shown, number) && has_standings(part, shown) {
        write_standings(text, alloc, part.form, machine, stands, p, names, number)
    } else {
        Ok(())
    }
}

/// A thread owes so many steps.
fn put_owed(owed: &mut Rows<u64>, t: u8, steps: u64)
    ensures { owed.new ≡ slice_set owed.old t steps }
{
    if (t as usize) < owed.len() {
        owed.set(t as usize, steps);
    }
}

/// How many it owes behind its event.
fn settle(owed: &mut Rows<u64>, t: u8, seen: &Option<Seen>)
    ensures { owed.new ≡ owed_after owed.old (Of t) seen.now }
{
    if let Some(seen) = seen {
        let steps = owed_behind(&seen.share, owed_at(owed, t));
        put_owed(owed, t, steps);
    }
}

/// Adds the line of an event by the thread before it, and by the machine behind it.
fn write_between(
    text: &mut Vec<u8>,
    alloc: Global,
    part: Part,
    p: &Checked,
    names: &Names,
    number: u64,
    seen: &Option<Seen>,
    machine: &Machine,
    t: u8,
) -> Result<(), AllocError>
    ensures { OnOk result (text.new.items ≡ text.old.items ++ line_between p.now part names.now
        number machine.now.core.words seen.now (slice_get machine.now.core.threads t)) }
{
    match (seen, machine.thread(t)) {
        (Some(seen), Some(s)) => {
            let after = see_after(s, found_in(machine, seen.before.access));
            write_event(
                text,
                alloc,
                part.form,
                p,
                names,
                number,
                left_out(part.folds, seen.row),
                &seen.before,
                &seen.share,
                &after,
            )
        }
        _ => Ok(()),
    }
}

/// Adds the line of the end that an event leads to, where that is no return.
fn write_end(
    ends: &mut Vec<u8>,
    alloc: Global,
    form: Form,
    p: &Checked,
    names: &Names,
    number: u64,
    seen: &Option<Seen>,
    machine: &Machine,
    t: u8,
) -> Result<(), AllocError>
    ensures { OnOk result (ends.new.items ≡ ends.old.items ++ end_between p.now names.now form
        number seen.now (slice_get machine.now.core.threads t)) }
{
    let (Some(seen), Some(s)) = (seen, machine.thread(t)) else {
        return Ok(());
    };
    write_event_end(
        ends,
        alloc,
        form,
        p,
        &names.sources,
        number,
        &seen.before,
        s.phase(),
    )
}

/// Whether an event of a thread is a failed turn behind others.
fn is_left_out(seen: &Option<Seen>, machine: &Machine, t: u8) -> bool
    ensures { result ≡ is_left_out seen.now (slice_get machine.now.core.threads t) }
{
    let (Some(seen), Some(s)) = (seen, machine.thread(t)) else {
        return false;
    };
    0 < seen.row && is_failed_turn(seen.turns, s.turns(), s.phase())
}

/// Whether it is left out.
fn has_no_line(folds: bool, seen: &Option<Seen>, machine: &Machine, t: u8) -> bool
    ensures { result ≡ folds && is_left_out seen.now (slice_get machine.now.core.threads t) }
{
    folds && is_left_out(seen, machine, t)
}

/// Of failed turns in a row, how many are left out before the event behind them.
fn left_out(folds: bool, row: u64) -> u64
    ensures { result ≡ left_out folds row }
{
    if folds { row.saturating_sub(1) } else { 0 }
}

/// Makes the next event of a live thread, and adds its line, where one is shown behind so many, and
/// to the ends that of an end which is no return; behind it the threads owe what they owe, and
/// stand where they stand. It answers how many lines are shown.
pub fn make_event(
    text: &mut Vec<u8>,
    ends: &mut Vec<u8>,
    alloc: Global,
    part: Part,
    shown: u64,
    machine: &mut Machine,
    owed: &mut Rows<u64>,
    stands: &mut Rows<Stand>,
    p: &Checked,
    names: &Names,
    number: u64,
    t: u8,
) -> Result<u64, AllocError>
    requires program { p.now ≡ machine.old.program }
    requires live { lives machine.old.core t ≡ true }
    ensures event { OnOk result (machine.new
        ≡ record machine.old { core = event machine.old.program machine.old.core t }) }
    ensures less { OnOk result (all_work machine.new.core < all_work machine.old.core) }
    ensures owed { OnOk result (owed.new
        ≡ owed_after owed.old (Of t) (seen_by p.now machine.old.core owed.old stands.old (Of t))) }
    ensures stands { OnOk result (stands.new ≡ stands_after p.now machine.old.core stands.old
        (Of t) (seen_by p.now machine.old.core owed.old stands.old (Of t))) }
    ensures end { OnOk result (ends.new.items ≡ ends.old.items ++ event_end p.now names.now
        part.form number machine.old.core
        (seen_by p.now machine.old.core owed.old stands.old (Of t))
        (Of t)) }
    ensures line { OnOk result (text.new.items ≡ text.old.items ++ put_text part shown
        (told_line p.now names.now part number machine.old.core stands.old
        (seen_by p.now machine.old.core owed.old stands.old (Of t)) (Of t))) }
    ensures shown { IfOk result (λ n. n ≡ shown_behind part shown
        (told_line p.now names.now part number machine.old.core stands.old
        (seen_by p.now machine.old.core owed.old stands.old (Of t)) (Of t))) }
{
    let mut standings = Vec::new(alloc);
    write_standings_due(
        &mut standings,
        alloc,
        part,
        shown,
        machine,
        stands,
        p,
        names,
        number,
    )?;
    let seen = look(machine, p, owed, stands, t);
    machine.event(p, t);
    settle(owed, t, &seen);
    settle_stand(stands, t, &seen, machine);
    write_end(ends, alloc, part.form, p, names, number, &seen, machine, t)?;
    if has_no_line(part.folds, &seen, machine, t) || !is_shown(part, shown, number) {
        return Ok(shown);
    }
    text.extend_from_slice(standings.as_slice())?;
    write_between(text, alloc, part, p, names, number, &seen, machine, t)?;
    Ok(shown + 1)
}

/// The words behind the number of the begin of a part, by how many parts began before.
fn part_text(part: u8) -> &'static str
    ensures { result.now ≡ part_text part }
{
    if part == 0 {
        " the workers begin"
    } else {
        " done begins"
    }
}

/// How many parts began behind `init`.
fn parts_begun(machine: &Machine) -> Option<u8>
    ensures { result ≡ option_map (λ x. x.part) (slice_get machine.now.core.threads 0) }
{
    match machine.thread(0) {
        Some(s) => Some(s.part()),
        None => None,
    }
}

/// The name of the part that begins, by how many parts began before.
fn part_name(part: u8) -> &'static str
    ensures { result.now ≡ part_name part }
{
    if part == 0 { "workers" } else { "done" }
}

fn part_facts(alloc: Global, number: u64, part: u8) -> Result<Rows<Fact>, AllocError>
    ensures { IfOk result (λ facts. facts ≡ part_facts number part) }
{
    let mut facts = Rows::new(alloc);
    add_count(&mut facts, Key::Number, number)?;
    add_text(&mut facts, alloc, Key::Begins, part_name(part).as_bytes())?;
    facts.push(Fact::Words(Bytes::from_slice(alloc, part_text(part).as_bytes())?))?;
    Ok(facts)
}

/// Adds the line, or the object, of the begin of a part, behind so many.
fn write_part(
    text: &mut Vec<u8>,
    alloc: Global,
    form: Form,
    number: u64,
    begun: Option<u8>,
) -> Result<(), AllocError>
    ensures { OnOk result (text.new.items ≡ text.old.items ++ part_line form number begun) }
{
    match begun {
        Some(begun) => {
            let facts = part_facts(alloc, number, begun)?;
            write_told(text, alloc, form, "part", facts.as_slice())
        }
        None => Ok(()),
    }
}

/// Begins the next part where it may begin, and adds its line, where one is shown behind so many.
/// It answers how many are.
pub fn make_part(
    text: &mut Vec<u8>,
    alloc: Global,
    part: Part,
    shown: u64,
    machine: &mut Machine,
    stands: &Rows<Stand>,
    p: &Checked,
    names: &Names,
    number: u64,
) -> Result<u64, AllocError>
    requires program { p.now ≡ machine.old.program }
    ensures part { OnOk result (machine.new
        ≡ record machine.old { core = next machine.old.program machine.old.core }) }
    ensures line { OnOk result (text.new.items ≡ text.old.items ++ put_text part shown
        (told_line p.now names.now part number machine.old.core stands.now
        (seen_by p.now machine.old.core [] stands.now NextPart) NextPart)) }
    ensures shown { IfOk result (λ n. n ≡ shown_behind part shown
        (told_line p.now names.now part number machine.old.core stands.now
        (seen_by p.now machine.old.core [] stands.now NextPart) NextPart)) }
{
    if !is_shown(part, shown, number) {
        machine.next(p);
        return Ok(shown);
    }
    write_standings_due(text, alloc, part, shown, machine, stands, p, names, number)?;
    write_part(text, alloc, part.form, number, parts_begun(machine))?;
    machine.next(p);
    Ok(shown + 1)
}
