//! The frames of a section that may run without its lock, and what they may do.

ghost use Rattle.checked_program.specs.SectionLaws.{ApartLaw, ExitLaw, MoveLaw, OwnLaw, ReadLaw};
ghost use Rattle.laws_sections.specs.FrameLaws.{BeginLaw, BlockLaw, HeldLaw, InvokeLaw, ResumeLaw};
ghost use Rattle.laws_sections.specs.FrameLaws.{ModeLaw, ReturnLaw};

/// What an instruction of such a section may do: it writes nothing, and reads no place but a frozen
/// one, or a guarded one of the section's object or class.
pub fn sections_read()
    ensures { ReadLaw }
{}

/// A `monitorexit` of such a section leaves the section's monitor, in a method that is called on
/// its object.
pub fn own_monitor_is_left()
    ensures { ExitLaw }
{}

/// No method is twice among the frames of such a section.
pub fn methods_are_apart()
    ensures { ApartLaw }
{}

/// An edge between two instructions of a tagged method brings the held list of its target.
pub fn edges_bring_held()
    ensures { HeldLaw }
{}

/// An edge from an own instruction of a section leads to one, or it is the exit of the block.
pub fn own_goes_on()
    ensures { OwnLaw }
{}

/// The frames of a section stay such as the top one moves within its method, but at the exit of the
/// block.
pub fn frames_move()
    ensures { MoveLaw }
{}

/// Where the `monitorenter` of a block goes on is an own instruction of the block.
pub fn blocks_begin()
    ensures { BeginLaw }
{}

/// The `monitorenter` of such a block is on `this`: it enters the monitor of the receiver.
pub fn blocks_are_on_this()
    ensures { BlockLaw }
{}

/// Where the top frame of a section calls a method, the called one is a frame of the section (JVMS
/// 2.6).
pub fn frames_invoke()
    ensures { InvokeLaw }
{}

/// A frame is run on this only in a section on `this`, and on a class only in a section on that.
pub fn frames_are_run()
    ensures { ModeLaw }
{}

/// Where the top frame of a section is left, by a return or an exception, those below stay frames
/// of the section.
pub fn frames_return()
    ensures { ReturnLaw }
{}

/// So they do where the calling frame then goes on, behind its call or at a handler.
pub fn callers_go_on()
    ensures { ResumeLaw }
{}
