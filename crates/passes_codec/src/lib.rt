//! Payloads of passes, for a store that keeps each list of built files and each artefact once: their bytes, their table of
//! texts, lists and passes, a reader and a writer.
#![tactic(auto)]

mod laws;
mod reading;
mod writing;

pub use laws::{laws_of_compacted_passes, laws_of_pass_payloads, laws_of_pass_tables};
pub use reading::{FileRanges, ListRange, PassRanges, RunRanges, file_range, read_pass_payload};
pub use writing::{
    known_pass_payload, put_file, put_known_list, put_list_start, put_output, put_run,
    put_simulator,
};
