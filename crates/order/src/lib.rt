//! The order of files by what they depend on, and the graph of a linked project, as definitions.
//! Files that wait for others, and which of them are ready: what the order of files and the builds of many children
//! share.
//! The order in which files are compiled, by what they depend on, or the cycle that leaves them without one.
#![tactic(auto)]

mod cycle;
mod files;
mod laws;
mod lists;
mod ordering;
mod untaken;

pub use files::ReadyFiles;
pub use laws::{laws_of_closures, laws_of_orders};
pub use ordering::order;
