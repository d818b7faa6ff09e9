//! Frames that meet where edges do.

ghost use Rattle.std.specs.Prelude.{◌≡◌, ℕ, not, true, false, IfOk};
ghost use Rattle.checked_program.specs.Visits.{Meeting};
ghost use Rattle.code_visits.specs.Level.{IsLawfulMeeting};

use std::alloc::{AllocError, Global};

/// Frames of a kind, and how two of them meet.
pub trait Frames {
    /// What is known before an instruction.
    type Frame: Drop;

    /// How frames meet.
    ghost meeting: { Meeting Self.Frame };

    /// A measure that all frames of a method share.
    ghost width: { Self.Frame → ℕ };

    /// The bytes that a frame takes.
    fn bytes_of(f: &Self::Frame) -> usize;

    fn copy(alloc: Global, f: &Self::Frame) -> Result<Self::Frame, AllocError>
        ensures { IfOk result (λ g. g ≡ f.now) };

    /// Whether two frames may not meet.
    fn clashes(f: &Self::Frame, other: &Self::Frame) -> bool
        ensures { result ≡ meeting.clashes f.now other.now };

    /// Whether a frame stays as it is where it meets another; it may be told not to.
    fn stays(f: &Self::Frame, other: &Self::Frame) -> bool
        requires { width f.now ≡ width other.now }
        ensures { result ≡ true → meeting.meet f.now other.now ≡ f.now };

    /// The frame where two meet, which takes the place of the first; and whether that changed it.
    fn meet(
        alloc: Global,
        f: Self::Frame,
        other: &Self::Frame,
    ) -> Result<(Self::Frame, bool), AllocError>
        requires apart { meeting.clashes f other.now ≡ false }
        requires wide { width f ≡ width other.now }
        ensures met { IfOk result (λ r. r.0 ≡ meeting.meet f other.now) }
        ensures told { IfOk result (λ r. r.1 ≡ not (meeting.same f (meeting.meet f other.now))) };

    ghost lawful: { IsLawfulMeeting meeting width };
}
