//! Visits of the instructions of a method, for frames of any kind: what is kept of each
//! instruction, what is brought along an edge, and the loop until nothing waits. An analysis says
//! what its frames are, how they meet, and what an instruction does with one.
#![tactic(auto)]

mod analysis;
mod budget;
mod edges;
mod frames;
mod meeting;
mod nodes;
mod stop;
mod visiting;

pub use analysis::Analysis;
pub use budget::{Budget, MOST_KEPT};
pub use edges::{go_along, go_to};
pub use frames::Frames;
pub use nodes::Nodes;
pub use stop::Stop;
pub use visiting::visit_all;
