//! The references of design units to names in libraries, and the names of their library clauses.
//! The testbench facts of a file: which of its entities are benches, which cases its architectures call, and whether it asks
//! for one simulation.
//! The outlines of files: the parts of a file's tokens that stay in memory after its scan.
#![tactic(auto)]

mod calls;
mod cases;
mod clause;
mod comments;
mod components;
mod context;
mod dots;
mod find;
mod indices;
mod named;
mod outlines;
mod passing;
mod reference_words;
mod refs;
mod runner;
mod runs;
mod structural;
mod testbench_words;
mod unit;
mod units;
mod unresolved;
mod uses;

pub use cases::{string_case, whole_case};
pub use context::library_names;
pub use find::find_refs;
pub use indices::RefIndex;
pub use outlines::{FileOutline, Outlines, UnitScope, room_for_units};
pub use refs::{no_ref, ref_in};
pub use runs::{FileFacts, UnitFacts, testbench_facts};
pub use structural::structural_ref;
pub use unresolved::{NamedRef, UnresolvedRefs, unresolved_refs};
