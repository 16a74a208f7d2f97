//! Programs of the system as children.
//! Children, of which standard error is told while they run.
#![tactic(auto)]

mod asked;
mod child;
mod counts;
mod line;
mod printed;
mod procs;
mod results;
mod teller;
mod tickets;
mod told;
mod turns;

pub use counts::Counts;
pub use procs::ChildProcs;
pub use teller::{Manner, Teller};
pub use told::ToldProcs;
pub use turns::Turns;
