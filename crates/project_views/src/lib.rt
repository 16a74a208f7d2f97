//! The graph of a project, and the views of its files.
#![tactic(auto)]

mod closed_parts;
mod listed;
mod same;
mod views;

pub use closed_parts::laws_of_parts;
pub use listed::{listed_entry, listed_graph};
pub use same::same_words;
pub use views::laws_of_views;
