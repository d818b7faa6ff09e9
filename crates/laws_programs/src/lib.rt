//! Laws of linked programs, of the order of types, and of verification by inferred types (JVMS
//! 4.10.2): what a machine that runs a program may rely on; each the contract of a function that
//! does nothing.
#![tactic(auto)]

pub mod class_laws;
pub mod code_laws;
pub mod edge_laws;
pub mod entry_laws;
pub mod field_laws;
pub mod least_laws;
pub mod local_laws;
pub mod new_laws;
pub mod order_laws;
pub mod root_laws;
pub mod rule_laws;
pub mod target_laws;
pub mod visit_laws;

pub use class_laws::{file_classes_stand_alone, leaves_stand_alone, throwables_are_below};
pub use code_laws::{
    branches_begin, class_of_new, code_starts, handlers_begin, insns_have_targets,
    methods_are_laid_out, next_follows, one_insn, pcs_are_short, pcs_ascend, starts_begin,
};
pub use edge_laws::{edges_land, frames_are_found, frames_stand};
pub use entry_laws::{
    arguments_fit, entry_fits, entry_has_arguments, entry_has_no_more, entry_has_receiver,
};
pub use field_laws::{
    instances_are_apart, instances_lie_inside, one_instance, one_static, statics_are_apart,
    statics_lie_inside,
};
pub use least_laws::{refusals_are_due, typing_is_least};
pub use local_laws::{frames_fit, typing_is_local};
pub use new_laws::{behind_rises, new_is_behind, new_stays_behind};
pub use order_laws::{
    classes_are_ordered, common_ancestor_is_least, frames_are_ordered, frames_meet, meet_is_least,
    types_are_ordered,
};
pub use root_laws::{
    class_inits_are_roots, entries_are_roots, one_method, run_is_root, run_stands,
};
pub use rule_laws::{
    arguments_suit, read_is_good, receiver_is_good, returns_suit, taken_are_good, unbroken_hold,
};
pub use target_laws::targets_have_rows;
pub use visit_laws::{
    one_refusal, one_typing, one_typing_of, typed_is_not_refused, typed_or_refused,
};
