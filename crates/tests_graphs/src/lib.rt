//! Graphs for tests, each made of the bytes of a record of a view.
#![tactic(auto)]

mod closed;
mod names;
mod reading;
mod sizes;
mod views;

pub use reading::read_record;
pub use store_form_2::Record;
