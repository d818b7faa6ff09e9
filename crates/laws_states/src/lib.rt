//! Laws of the states that a run reaches: of the words that hold objects, of those for locking and
//! those that are counted up, of who holds and who waits, and of how far the parts have come; that
//! every run is safe, and who may change what in it; each the contract of a function that does
//! nothing.
#![tactic(auto)]

pub mod change_laws;
pub mod found_laws;
pub mod growing_laws;
pub mod heap_laws;
pub mod kept_laws;
pub mod left_laws;
pub mod owner_laws;
pub mod part_laws;
pub mod reached_laws;
pub mod run_laws;
pub mod safety_laws;
pub mod site_laws;
pub mod untried_laws;
pub mod work_laws;

pub use change_laws::{
    events_leave_others, events_respect_owners, parts_leave_words, runs_respect_owners,
};
pub use found_laws::heap_words_fit;
pub use growing_laws::{one_more_happens, runs_keep_sizes, threads_stay_of_runs};
pub use heap_laws::{events_keep_heap, next_keeps_heap, start_has_heap};
pub use kept_laws::{
    counters_are_kept, locks_are_kept, next_keeps_counters, records_are_kept, start_counters_fit,
    start_locks_fit, start_records_fit, sums_fit,
};
pub use left_laws::left_words_may_stand;
pub use owner_laws::{
    events_keep_owners, events_keep_waiting, next_keeps_owners, next_keeps_waiting,
};
pub use part_laws::{
    class_inits_run_alone, events_keep_parts, events_put_inits_first, next_keeps_parts,
    next_puts_inits_first, parts_keep_threads, start_puts_inits_first, start_stands_in_parts,
};
pub use reached_laws::{
    events_keep_state, next_keeps_state, runs_have_state, start_has_state, states_have_facts,
};
pub use run_laws::{
    reached_fits, run_facts_event, run_facts_next, run_facts_start, runs_reach, threads_are_kept,
};
pub use safety_laws::runs_are_safe;
pub use site_laws::{events_reach_sites, sites_differ, sites_lie_inside};
pub use untried_laws::{
    events_make_no_attempts, next_makes_no_attempts, no_attempts, start_has_no_attempts,
};
pub use work_laws::{
    events_lessen_all_work, events_lessen_work, every_order_has_run, work_is_bounded,
};
