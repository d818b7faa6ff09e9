//! Laws of lock tagging, most of them from laws of visits for frames of any kind, and of sections
//! that run without their lock; each the contract of a function that does nothing.
#![tactic(auto)]

pub mod array_laws;
pub mod field_laws;
pub mod frame_laws;
pub mod local_laws;
pub mod mark_laws;
pub mod object_laws;
pub mod reach_laws;
pub mod visit_laws;

pub use array_laws::{arrays_stay, colourings_are_one, elements_written_locked, owned_is_decided};
pub use field_laws::{
    final_statics_written_inside, finals_written_inside, guarded_written_locked,
    statics_written_locked,
};
pub use frame_laws::{
    blocks_are_on_this, blocks_begin, callers_go_on, edges_bring_held, frames_are_run,
    frames_invoke, frames_move, frames_return, methods_are_apart, own_goes_on, own_monitor_is_left,
    sections_read,
};
pub use local_laws::tagging_is_local;
pub use mark_laws::{one_mark, one_use};
pub use object_laws::frozen_hides_this;
pub use reach_laws::{own_tag_is_free, tagged_is_typed};
pub use visit_laws::{one_tag_refusal, one_tagging, tagged_is_not_refused, tagged_or_refused};
