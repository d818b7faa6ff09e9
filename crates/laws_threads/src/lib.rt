//! Laws of one thread, whatever an event does: what its frames show of the monitors that it has
//! entered, its attempts to run sections without their lock, and that locking stays structured;
//! that its values stay of their types; its limits, and its state as a whole; each the contract of
//! a function that does nothing.
#![tactic(auto)]

pub mod base_laws;
pub mod bound_laws;
pub mod call_laws;
pub mod entry_laws;
pub mod frame_laws;
pub mod given_laws;
pub mod held_laws;
pub mod inside_laws;
pub mod lawful_laws;
pub mod move_laws;
pub mod part_laws;
pub mod root_laws;
pub mod standing_laws;
pub mod structure_laws;
pub mod throw_laws;
pub mod type_laws;

pub use base_laws::attempts_are_based;
pub use bound_laws::bounds_are_kept;
pub use call_laws::{
    called_stand, calls_enter, calls_show, returns_behind_release, returns_show, roots_show,
};
pub use entry_laws::{leaves_keep_entry, steps_keep_entry, throws_keep_entry};
pub use frame_laws::{
    effects_are_allowed, frames_stand, going_fits, handlers_fit, made_stand, returns_fit,
    thrown_stand,
};
pub use given_laws::given_is_kept;
pub use held_laws::held_has_room;
pub use inside_laws::{
    attempt_begins, elements_inside, enters_inside, inside_may_do, leaves_inside, steps_inside,
    throws_inside,
};
pub use lawful_laws::lawful_is_kept;
pub use move_laws::{
    effects_follow_edges, effects_show, elements_show, enters_show, leaves_show, making_shows,
    moves_show, pushed_shows,
};
pub use part_laws::{events_fit_parts, next_fits_parts, next_keeps_structure, start_fits_parts};
pub use root_laws::roots_are_kept;
pub use standing_laws::{frames_have_tops, one_standing, tops_stand};
pub use structure_laws::{events_keep_structure, structure_is_kept};
pub use throw_laws::{
    caught_shows, effects_throw, throws_show, unwinds_behind_release, unwound_shows,
};
pub use type_laws::types_are_kept;
