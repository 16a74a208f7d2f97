//! The outside, as the program sees it: a tree of sources, a disk, children, an input, an output, and the files that reports
//! are written to. Each object counts its faults. An object tells its contents, or it tells nothing but its counts, its
//! running tickets, and the size and form of what it answers.
#![tactic(auto)]

mod counts;
mod disk;
mod durable;
mod laws;
mod lines;
mod procs;
mod records;
mod reports;
mod streams;
mod tree;

pub use counts::count_fault;
pub use disk::{Disk, Side};
pub use durable::{cut_durably, write_durably};
pub use laws::{laws_of_commits, laws_of_phases};
pub use lines::line_length;
pub use procs::{Ended, Procs, StartFault, WaitFault};
pub use records::{OpenRecords, Records, StoreFault};
pub use reports::{ReportFault, Reports};
pub use streams::{LineEnd, Sink, SinkFault, Source, SourceFault, TakeEnd};
pub use tree::{NamesEnd, ReadEnd, Tree, TreeFault};
