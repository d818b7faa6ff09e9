//! The words that threads share, as numbers: where a thing stands, how many words it takes, and
//! what its header says. The standard leaves this open (JVMS 2.7).
#![tactic(auto)]

mod headers;
mod monitors;
mod places;
mod sizes;
mod throwables;

pub use headers::{header, header_class, header_length};
pub use monitors::monitor_of;
pub use places::{bits_word, header_word, owner_word, place, variable_word};
pub use sizes::{array_size, class_object, object_size};
pub use throwables::{class_of, out_object, ready, thrown_of};

#[cfg(test)]
mod tests;
