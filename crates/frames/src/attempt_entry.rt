use crate::head::Head;
use machine_types::AttemptHead;

/// An attempt, with the head of the frame that it keeps.
#[derive(Clone, Copy)]
pub struct AttemptEntry {
    pub attempt: AttemptHead,
    pub frame: Head,
}
