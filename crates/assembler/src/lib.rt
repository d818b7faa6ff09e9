//! Class files as text: the class of a listing, and laws of listings.
#![tactic(auto)]

pub mod asm_error;
pub mod assembling;
pub mod listing_laws;

pub use asm_error::AsmError;
pub use assembling::assemble;
pub use listing_laws::{listings_are_formed, one_class, one_listing};
