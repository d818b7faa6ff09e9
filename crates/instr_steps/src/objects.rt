//! Elements of arrays, new objects, thrown objects and prints.

ghost use Rattle.std.specs.Prelude.{◌≡◌, ◌<◌, ◌≤◌, ◌^◌, length, option_map};
ghost use Rattle.machine_types.specs.Frames.{frames_of, making, top_row, went_on};
ghost use Rattle.machine_types.specs.Going.{goes_on, goes_on_if};
ghost use Rattle.machine_types.specs.Instructions.{did, has_print_left, indexed, made};
ghost use Rattle.machine_types.specs.Ints.{low, int_of};
ghost use Rattle.machine_types.specs.Onward.{Running, Throwing};
ghost use Rattle.machine_types.specs.ReadyObjects.{thrown_of};
ghost use Rattle.machine_types.specs.Words.{header_class, header_length, value_word};
ghost use Rattle.machine_types.specs.declared.effect.Effect.TheVariants.{Prints};
ghost use Rattle.instr_steps.specs.Places.{CanGo, IsTopAt, at_place};

use crate::moves::{go_on, throw};
use crate::places::CurrentInsn;
use checked_program::Checked;
use code_table::takes;
use frames::ThreadState;
use heap_words::{header_class, header_length, place as value_word, thrown_of};
use jvm_types::{End, Print, Thrown};
use machine_types::Phase;

/// The low 32 bits of a word.
#[inline(always)]
fn low(word: u64) -> u32
    ensures { result ≡ low word }
{
    (word % 4_294_967_296) as u32
}

/// A word as an int.
#[inline(always)]
fn int_of(word: u64) -> i32
    ensures { result ≡ int_of word }
{
    low(word).cast_signed()
}

/// An element of the array whose header was found is to be read, or stored, or is not there.
pub fn index(
    s: &mut ThreadState,
    p: &Checked,
    place: &CurrentInsn,
    array: u64,
    index: u64,
    stored: Option<u64>,
    got: u64,
)
    requires stands { IsTopAt p.now.program s.old.frames place.now }
    requires array { array < p.now.program.heap }
    requires count { header_length got ≤ p.now.program.heap }
    ensures { s.new ≡ indexed s.old (at_place s.old.frames place.now) array (low index) stored
        (header_length got) }
{
    let _most = p.heap();
    let i = low(index);
    if i < header_length(got) {
        s.set_phase(Phase::Element(value_word(array as u32, i), stored));
    } else {
        throw(s, p, place, Thrown::ArrayIndexOutOfBoundsException);
    }
}

/// The length of the array whose header was found.
pub fn measure(s: &mut ThreadState, p: &Checked, place: &CurrentInsn, got: u64)
    requires program { p.now ≡ s.old.program }
    requires stands { IsTopAt p.now.program s.old.frames place.now }
    requires row { CanGo p.now.program s.old.frames place.now }
    requires count { header_length got ≤ p.now.program.heap }
    ensures { s.new ≡ goes_on s.old (Running
        (went_on p.now.program (at_place s.old.frames place.now) (header_length got))) }
{
    let _heap = p.heap();
    go_on(s, p, place, header_length(got) as u64);
}

/// The object whose header was found is thrown.
pub fn raise(s: &mut ThreadState, p: &Checked, place: &CurrentInsn, x: u64, got: u64)
    requires stands { IsTopAt p.now.program s.old.frames place.now }
    requires reference { x < p.now.program.heap }
    ensures { s.new ≡ goes_on_if s.old (option_map
        (λ class. Throwing x class (frames_of (at_place s.old.frames place.now)))
        (thrown_of (header_class got))) }
{
    let _insn = place.insn();
    let _heap = p.heap();
    if let Some(class) = thrown_of(header_class(got)) {
        s.set_phase(Phase::Throw(x as u32, class));
    }
}

/// How many values the instruction at which the top frame stands takes from its stack.
fn top_takes(s: &ThreadState, p: &Checked, place: &CurrentInsn) -> u16
    requires stands { IsTopAt p.now.program s.now.frames place.now }
    requires row { CanGo p.now.program s.now.frames place.now }
    ensures { result ≡ length (top_row p.now.program (at_place s.now.frames place.now)).takes }
{
    let m = place.method();
    // a stack has fewer values than a `u16` counts
    let _most = m.max_stack;
    let insn = place.insn();
    takes(p.program(), m, insn.pc, place.target(), &insn.op) as u16
}

/// A new object at the word that was free, where the heap has room for it.
pub fn make(s: &mut ThreadState, p: &Checked, place: &CurrentInsn, word: u64, size: u64, free: u64)
    requires program { p.now ≡ s.old.program }
    requires stands { IsTopAt p.now.program s.old.frames place.now }
    requires row { CanGo p.now.program s.old.frames place.now }
    ensures { s.new ≡ made p.now.program s.old (at_place s.old.frames place.now) word size free }
{
    let heap = p.heap() as u64;
    if size <= heap && free <= heap - size {
        let count = top_takes(s, p, place);
        s.drop_values(count);
        s.set_pc(place.insn().next);
        s.set_phase(Phase::Made(free as u32, word));
    } else {
        throw(s, p, place, Thrown::OutOfMemoryError);
    }
}

/// Whether the thread may print once more.
#[inline(always)]
pub fn has_print_left(s: &ThreadState) -> bool
    ensures { result ≡ has_print_left s.now }
{
    s.prints_made() < s.config().prints
}

/// A print with its ticket, or the end of a thread that may not print once more.
pub fn print(s: &mut ThreadState, p: &Checked, place: &CurrentInsn, value: u64, ticket: u64)
    requires program { p.now ≡ s.old.program }
    requires stands { IsTopAt p.now.program s.old.frames place.now }
    requires row { CanGo p.now.program s.old.frames place.now }
    ensures { s.new
        ≡ did p.now.program s.old (at_place s.old.frames place.now) (Prints value) ticket }
{
    if has_print_left(s) {
        s.add_print(Print {
            ticket,
            value: int_of(value),
        });
        go_on(s, p, place, 0);
    } else {
        s.set_phase(Phase::Ending(End::Prints));
    }
}
