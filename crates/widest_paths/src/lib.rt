//! Widest paths: how high a path from a node to one of some nodes can stay, in a graph whose nodes
//! have levels and whose edges leave whole ranges of nodes.
#![tactic(auto)]

mod graph;
mod search;

pub use graph::{Fan, Graph};
pub use search::widest;
