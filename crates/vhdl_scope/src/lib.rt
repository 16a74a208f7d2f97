//! The libraries that each design unit of a project sees.
#![tactic(auto)]

mod bits;
mod groups;
mod joins;
mod linking;
mod links;
mod listing;
mod look;
mod names;
mod order;
mod own;
mod row;
mod scope;
mod spread;
mod table;
mod want;
mod wants;
mod work;

pub use table::{VisibleLibraries, visible_sets};
