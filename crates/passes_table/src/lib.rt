//! What payloads of passes stand for, as indices in their bytes: texts, lists of built files and passes. Payloads are taken up one
//! after the other, and nothing but names is copied. Beside them is the list of the files that tests run over now: what is recalled
//! of a run, and what a new pass adds, are over that list.
#![tactic(auto)]

mod additions;
mod asking;
mod checking;
mod compacting;
mod counting;
mod fingerprints;
mod lists;
mod loaded;
mod pending;
mod putting;
mod sizes;
mod table;
mod taking;
mod writing;

pub use additions::{FoundList, ListPart, NextPass, PassAddition};
pub use lists::ListRow;
pub use loaded::LoadedPasses;
pub use pending::{FreshTexts, PendingList};
pub use table::{LocatedPasses, PassRow};
