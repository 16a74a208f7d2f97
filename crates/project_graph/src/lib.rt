//! The graph of a linked project.
#![tactic(auto)]

mod closures;
mod fitting;
mod graphs;
mod laws;

pub use fitting::fit_texts;
pub use graphs::{graph_of, graph_of_entries, linked_entries};
pub use laws::laws_of_linked_graphs;
