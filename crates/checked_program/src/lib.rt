//! Checked programs: a linked program beside what the checks of its methods found.
#![tactic(auto)]

pub mod call_edges;
pub mod checked;
mod code_index;
pub mod laws;
mod reached_code;
pub mod section;
pub mod tag;
pub mod tag_locals;
pub mod tag_order;

pub use call_edges::{Graph, called_method};
pub use checked::Checked;
pub use code_index::word_of_class;
pub use laws::{
    called_fit, calls_suit, catchers_are_among, checked_is_sound, frames_have_places, places_hold,
    reach_is_one,
};
pub use section::{FieldUse, Mode, SectionMark, Spot, Uses};
pub use tag::{Tag, TagFrame, Tags};
pub use tag_locals::TagLocals;
pub use tag_order::{meet_tag, same_tag, without_tag};
