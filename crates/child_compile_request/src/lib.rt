//! The requests of a compiler as bytes.
#![tactic(auto)]

mod laws;
mod reading;
mod writing;

pub use laws::laws_of_jobs;
pub use reading::{CompileJob, after_magic, all_built, read_compile_request};
pub use writing::{BuiltBytes, RequestWriter};
