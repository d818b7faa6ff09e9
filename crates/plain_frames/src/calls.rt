//! Calls of methods (JVMS 2.6).

ghost use Rattle.std.specs.Prelude.{◌≡◌, ◌+◌, ◌*◌, ◌-◌, ◌≤◌, ◌<◌, ℕ, List, ◌∷◌, [], drop, length};
ghost use Rattle.std.specs.Prelude.{replicate, slice_get, ◌++◌, IfOk, OnOk};
ghost use Rattle.jvm_types.specs.declared.limits.TheConstants.{MOST_FRAMES};
ghost use Rattle.machine_types.specs.Frames.{entry_frame, first_or_null, frames_of, has_room};
ghost use Rattle.machine_types.specs.Frames.{slots, slots_of};
ghost use Rattle.machine_types.specs.Onward.{called, entered, root_arguments, rooted};
ghost use Rattle.jvm_types.specs.declared.program.Program.{Program};
ghost use Rattle.machine_types.specs.Threads.{Frame as Plain};
ghost use Rattle.plain_frames.specs.Changes.{onward_of, root_begun};

use crate::at::At;
use crate::frame::Frame;
use crate::made::{arguments_of, taken_from};
use crate::onward::{Change, Onward, threw};
use checked_program::Checked;
use heap_words::monitor_of;
use jvm_types::flags::{is_static, is_synchronized};
use jvm_types::limits::{MOST_FRAMES, MOST_SLOTS};
use jvm_types::{MethodInfo, Rows, Stack, Thrown};
use std::alloc::{AllocError, Global};

fn slots_of(m: &MethodInfo) -> u32
    ensures slots { result ≡ m.now.max_locals + m.now.max_stack }
    ensures few { result ≤ 131070 }
{
    m.max_locals as u32 + m.max_stack as u32
}

/// The slots of a frame.
fn frame_slots(p: &Checked, f: &Frame) -> u32
    ensures slots { result ≡ slots_of (slice_get p.now.program.methods f.now.method) }
    ensures few { result ≤ 131070 }
{
    match p.program().methods.get(f.method() as usize) {
        Some(m) => slots_of(m),
        None => 0,
    }
}

/// The frame that has so many above it.
fn frame_at(frames: &Stack<Frame>, down: usize) -> &Frame
    requires { down < length frames.now }
    ensures { drop down frames.now ≡ result.now ∷ drop (down + 1) frames.now }
{
    match frames.get(down) {
        Some(frame) => frame,
        None => unreachable!(),
    }
}

/// The slots of a frame and of those below it, which are few.
fn slots(p: &Checked, frames: &Stack<Frame>, down: usize) -> u32
    requires { length frames.now ≤ down + MOST_FRAMES }
    ensures slots { result ≡ slots p.now.program (drop down frames.now) }
    ensures few { result ≤ MOST_FRAMES * 131070 }
{
    let mut total = 0;
    for i in down..frames.len() {
        total += frame_slots(p, frame_at(frames, i));
    }
    total
}

/// Whether a frame of the method fits on a frame and those below it.
pub fn has_room(p: &Checked, frames: &Stack<Frame>, down: usize, m: &MethodInfo) -> bool
    ensures { result ≡ has_room p.now.program (drop down frames.now) m.now }
{
    if frames.len().saturating_sub(down) >= MOST_FRAMES {
        return false;
    }
    slots(p, frames, down) + slots_of(m) <= MOST_SLOTS
}

/// The frame of a method with its arguments.
fn entry_frame(
    alloc: Global,
    number: u32,
    m: &MethodInfo,
    mut args: Rows<u64>,
) -> Result<Frame, AllocError>
    ensures { IfOk result (λ f. f ≡ entry_frame number m.now args) }
{
    let receiver = receiver_of(m, args.as_slice());
    let rest = usize::from(m.max_locals).saturating_sub(args.len());
    add_zeros(&mut args, rest)?;
    Ok(Frame::of(number, 0, receiver, args, Rows::new(alloc)))
}

fn receiver_of(m: &MethodInfo, args: &[u64]) -> u64
    ensures { result ≡ (entry_frame 0 m.now args.now).receiver }
{
    match args {
        [first, ..] if !is_static(m.flags) => *first,
        _ => 0,
    }
}

/// Adds so many zeros.
fn add_zeros(values: &mut Rows<u64>, count: usize) -> Result<(), AllocError>
    ensures { OnOk result (values.new ≡ values.old ++ replicate count 0) }
{
    for _ in 0..count {
        values.push(0)?;
    }
    Ok(())
}

/// It goes on in the frame of a method, when it has entered the monitor of a synchronized one.
fn entered(p: &Checked, m: &MethodInfo, caller: Frame, entry: Frame) -> Onward
    ensures { (top : Plain) (below : List Plain)
        → onward_of (top ∷ below) result ≡ entered p.now.program m.now entry (caller ∷ below) }
{
    if is_synchronized(m.flags) {
        let monitor = monitor_of(p, m, entry.receiver());
        Onward::Entering(monitor, Change::Call(caller, entry))
    } else {
        Onward::Running(Change::Call(caller, entry))
    }
}

/// It calls a method of the program.
pub fn called(
    alloc: Global,
    p: &Checked,
    at: &At,
    number: u32,
    m: &MethodInfo,
) -> Result<Onward, AllocError>
    ensures { IfOk result
        (λ o. onward_of (frames_of at.now) o ≡ called p.now.program at.now number m.now) }
{
    if !at.has_room(p, m) {
        return Ok(threw(Thrown::StackOverflowError, at));
    }
    let caller = taken_from(alloc, p, at)?;
    let entry = entry_frame(alloc, number, m, arguments_of(alloc, p, at)?)?;
    Ok(entered(p, m, caller, entry))
}

/// A root takes the number of its thread, where it takes an argument.
fn root_arguments(alloc: Global, t: u8, m: &MethodInfo) -> Result<Rows<u64>, AllocError>
    ensures { IfOk result (λ args. args ≡ root_arguments t m.now) }
{
    let mut args = Rows::new(alloc);
    if m.args.len() > 0 {
        args.push(t as u64)?;
    }
    Ok(args)
}

/// The frame of a root of thread `t`, or `None` where it has no room.
pub fn rooted(
    alloc: Global,
    t: u8,
    number: u32,
    m: &MethodInfo,
) -> Result<Option<Frame>, AllocError>
    ensures { IfOk result (λ f. (p : Program) → root_begun f ≡ rooted p t number m.now) }
{
    if slots_of(m) > MOST_SLOTS {
        return Ok(None);
    }
    let entry = entry_frame(alloc, number, m, root_arguments(alloc, t, m)?)?;
    Ok(Some(entry))
}
