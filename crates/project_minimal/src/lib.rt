//! The files that tests need: the least set that has the files of their entities and what its files need.
//! The graph of the files of a project that tests need.
#![tactic(auto)]

mod graphs;
mod index;
mod laws;
mod listed;
mod needed;
mod parts;
mod ranks;
mod sources;
mod suppliers;
mod taken;
mod units;

pub use graphs::{minimal_graph, minimal_listed_graph};
pub use laws::laws_of_minimal_sets;
pub use needed::minimal;
pub use parts::restrict;
pub use ranks::ranks_in;
