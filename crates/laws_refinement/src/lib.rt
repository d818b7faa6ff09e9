//! Every run of the machine stands for a run of the plain machine, where sections run without their
//! lock, too: what the events of attempts are to the plain machine, where attempts begin and end,
//! where the events of an order end, and of whole runs; laws, each the contract of a function that
//! does nothing.
#![tactic(auto)]

pub mod entry_laws;
pub mod finish_laws;
pub mod growth_laws;
pub mod inside_laws;
pub mod over_laws;
pub mod run_laws;
pub mod stability_laws;
pub mod tally_laws;
pub mod torn_laws;

pub use entry_laws::{
    attempts_end, attempts_only_look, attempts_stay, begun_are_due, due_begin, failures_put_back,
    few_fail, instructions_enter, only_failures_count, threads_keep_count,
};
pub use finish_laws::sections_finish;
pub use growth_laws::own_keeps_attempt;
pub use inside_laws::{attempts_are_silent, attempts_stand_beside};
pub use over_laws::schedules_end_over;
pub use run_laws::{
    locked_runs_are_faithful, locked_runs_follow, runs_are_faithful, runs_follow, runs_stand,
};
pub use stability_laws::others_keep_attempts;
pub use tally_laws::{attempts_are_counted, attempts_print_nothing, finishes_are_counted};
pub use torn_laws::{noted_never_returns, torn_runs_are_short};
