//! One event of a run, as a line and as an object of JSON: which thread it is of, where that
//! stands, what it does in words, the word that it accesses and what it found and left there, what
//! becomes of attempts and locks, and the plain steps that it stands for.
#![tactic(auto)]

pub mod acts;
pub mod deeds;
pub mod doing;
pub mod entries;
pub mod event_facts;
pub mod fates;
pub mod headers;
pub mod monitors;
pub mod naming_laws;
pub mod phases;
pub mod share_texts;
pub mod shares;
pub mod sights;
pub mod tops;
pub mod values;
pub mod waiting;
pub mod word_facts;
pub mod words;

pub use acts::Acts;
pub use doing::{Doing, next_doing};
pub use event_facts::{write_event, write_event_end, write_standing};
pub use naming_laws::{classes_are_told, names_accessed_words};
pub use phases::add_end_text;
pub use shares::{Share, owed_behind, share_of};
pub use sights::{After, Before, Spot, see_after, see_before};
pub use words::SharedWord;
