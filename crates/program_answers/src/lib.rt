//! What a program answers: a text that is due and a status with it, how it reaches the sink, and
//! how runs finish.
#![tactic(auto)]

pub mod answer;
pub mod delivery;
pub mod finish;
pub mod start;
