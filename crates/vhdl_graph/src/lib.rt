//! The dependencies between the files of a project, and the faults in the names of its design units.
#![tactic(auto)]

mod check;
mod index;
mod key;
mod laws;
mod libraries;
mod linking;
mod pairs;
mod refs;
mod rows;
mod seen;
mod spelling;
mod units;
mod warnings;

pub use laws::laws_of_links;
pub use linking::link;
