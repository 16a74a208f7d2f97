//! What a build is, as definitions: the journal of its children, the clean build, the statuses of files, what is recorded
//! of a file, and which disks are faithful; with laws of what is recorded.
//! Histories of a project's disk, as definitions: runs of the program, edits of the sources, and stops. Nothing runs here.
//! What runs next, and which children run: what the builds of files and the runs of tests share.
//! The journal of the runs of tests, as definitions, with its laws. Nothing runs here.
#![tactic(auto)]

mod child;
mod fault;
mod laws;
mod statuses;
mod step;
mod test_laws;

pub use child::{Child, has_ticket, index_of};
pub use fault::{RunFault, note};
pub use laws::{laws_of_artefacts, laws_of_recorded};
pub use statuses::{FileStatus, FileStatusList};
pub use step::Step;
pub use test_laws::laws_of_tests;
