//! Frozen classes: those of which no `<init>` lets its object out (JVMS 2.9.1; on final fields of
//! objects that are not let out while they are made, JLS 17.5).
#![tactic(auto)]

mod class_flags;
mod edges_kept;
mod insn_kept;
mod looks;
mod places;

pub use class_flags::{first_out, frozen_classes};
