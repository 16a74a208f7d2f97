//! The store of passes on a disk, as payloads of a journal of its own. A pass has a run of tests, the words of the simulator, the
//! built files that it ran over, and its output. Each list of built files and each artefact is stored once.
//!
//! - The last pass of the same tests counts. A run is known to pass if that pass is of this run, over these files.
//! - Compaction keeps the last pass of the same tests, with the lists and artefacts that it needs.
#![tactic(auto)]

mod compacting;
mod reading;
mod store;

pub use store::PassStore;
