//! Exceptions (JVMS 2.10): the first handler row that catches, or the frame ends.

ghost use Rattle.std.specs.Prelude.{◌≡◌, ◌<◌, ◌∷◌, [], drop, option_map, IsSome, None};
ghost use Rattle.jvm_types.specs.Verifying.{covers};
ghost use Rattle.machine_types.specs.Frames.{catches, caught, handler_of, handler_at};
ghost use Rattle.machine_types.specs.Going.{goes_on};
ghost use Rattle.machine_types.specs.Onward.{handed, unwound, Running};
ghost use Rattle.machine_types.specs.ReadyObjects.{class_of};
ghost use Rattle.frames.specs.FrameLists.{top, with_top};
ghost use Rattle.instr_steps.specs.Places.{IsTopAt, at_place};

use crate::places::CurrentInsn;
use checked_program::Checked;
use code_table::is_subclass;
use frames::{ThreadState, runs};
use heap_words::{class_of, monitor_of};
use jvm_types::flags::is_synchronized;
use jvm_types::{End, Row, Thrown};
use machine_types::{After, Phase};

/// Whether a row catches an exception of a class that was thrown at a pc.
fn catches(pc: u32, class: u16, row: &Row) -> bool
    ensures { result ≡ catches pc class row.now }
{
    row.start <= pc && pc < row.end && (row.catch_class == 0 || is_subclass(class, row.catch_class))
}

/// Where the first row that catches has its handler.
fn handler(pc: u32, class: u16, rows: &[Row]) -> Option<u32>
    ensures { result ≡ option_map (λ r. r.handler) (handler_of pc class rows.now) }
{
    for row in rows {
        if catches(pc, class, row) {
            return Some(row.handler);
        }
    }
    None
}

/// The top frame goes on at a handler, with the exception alone on its stack.
fn go_to_handler(s: &mut ThreadState, p: &Checked, place: &CurrentInsn, x: u32, to: u32)
    requires program { p.now ≡ s.old.program }
    requires stands { IsTopAt p.now.program s.old.frames place.now }
    requires room { 0 < place.now.method.max_stack }
    ensures { s.new ≡ goes_on s.old (Running
        (with_top (record (top s.old.frames) { pc = to; stack = x ∷ [] }) s.old.frames)) }
{
    let _checked = p.program();
    let _method = place.method();
    s.clear_values();
    s.push_value(x as u64);
    s.set_pc(to);
    runs(s);
}

/// The top frame ends by the exception, which the one below it throws, where there is one.
pub fn unwind(s: &mut ThreadState, x: u32, class: Thrown)
    ensures { s.new ≡ goes_on s.old (unwound x class (drop 1 s.old.frames)) }
{
    if s.depth() > 0 {
        s.pop_frame();
    }
    if s.depth() == 0 {
        s.set_phase(Phase::Ending(End::Uncaught(class)));
    } else {
        s.set_phase(Phase::Throw(x, class));
    }
}

/// The top frame ends by an exception that none of its rows catches, a synchronized method's when
/// it has left its monitor.
fn end_by(s: &mut ThreadState, p: &Checked, place: &CurrentInsn, x: u32, class: Thrown)
    requires program { p.now ≡ s.old.program }
    requires stands { IsTopAt p.now.program s.old.frames place.now }
    requires receiver { (top s.old.frames).receiver < 4294967296 }
    ensures { s.new ≡ goes_on s.old
        (handed p.now.program x class (at_place s.old.frames place.now) None) }
{
    if is_synchronized(place.method().flags) {
        let monitor = monitor_of(p, place.method(), u64::from(s.receiver())) as u32;
        s.set_phase(Phase::Leave(monitor, After::Unwind(x, class)));
    } else {
        unwind(s, x, class);
    }
}

/// The exception is handed to the top frame: a handler catches it, or the frame ends by it.
pub fn hand(s: &mut ThreadState, p: &Checked, place: &CurrentInsn, x: u32, class: Thrown)
    requires program { p.now ≡ s.old.program }
    requires stands { IsTopAt p.now.program s.old.frames place.now }
    requires receiver { (top s.old.frames).receiver < 4294967296 }
    requires room { IsSome (handler_at (class_of class) (at_place s.old.frames place.now))
        → 0 < place.now.method.max_stack }
    ensures { s.new ≡ goes_on s.old (handed p.now.program x class (at_place s.old.frames place.now)
        (handler_at (class_of class) (at_place s.old.frames place.now))) }
{
    let m = place.method();
    match handler(s.pc(), class_of(class), m.rows.as_slice()) {
        Some(to) => go_to_handler(s, p, place, x, to),
        None => end_by(s, p, place, x, class),
    }
}
