//! Texts and numbers as JSON (RFC 8259), in ASCII alone: what each line of JSON is made of.
#![tactic(auto)]

pub mod characters;
pub mod form;
pub mod members;

pub use form::Form;
pub use members::{write_json_number, write_json_text, write_number_member, write_text_member};
