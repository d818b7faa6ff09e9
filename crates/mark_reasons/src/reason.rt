//! Why a section runs with its lock.

use crate::cause::Cause;
use checked_program::Mode;
use jvm_types::Rows;

/// An instruction of a method, as a section comes to that method.
#[derive(Clone, Copy, Debug, PartialEq, Eq)]
pub struct Site {
    /// The number of the method.
    pub method: u32,
    /// How the section runs the method.
    pub mode: Mode,
    /// The number of the instruction in the code of the method.
    pub at: usize,
}

/// Why a section has not the mark M0. A way begins at an own instruction of the section, and each
/// instruction of it calls the method of the next one.
#[derive(Debug, Drop)]
pub enum Reason {
    /// The section is neither on `this` nor on its class (M8), and some path reaches it.
    Elsewhere,
    /// No path reaches the `monitorenter` of the block, and so none enters it (M8).
    Unreached,
    /// The instruction at the end of the way breaks a rule, M1 to M5: an own one of the section
    /// where the way is empty, else one that calls lead to (M6). Of M5 there is a cause.
    Breaks {
        way: Rows<Site>,
        site: Site,
        rule: u8,
        cause: Option<Cause>,
    },
    /// The last instruction of the way calls the method of that number of the way, counted from 0
    /// (M7).
    Recurs {
        way: Rows<Site>,
        again: usize,
    },
}
