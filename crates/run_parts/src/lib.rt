//! What every runner needs of a run: the words and the threads at its start, when a part may begin,
//! and how its end is read off.
#![tactic(auto)]

mod ending;
mod parts;
mod threads;
mod words;

pub use ending::done_end;
pub use parts::{has_finished, have_finished, may_begin, shares_are_next};
pub use threads::{have_width, start_threads};
pub use words::start_words;
