//! The outside over memory: a tree, a disk, children by a table, a source and a sink that tell what they hold. Each
//! fails in the calls that it is told to fail.
//! Reports in memory, which tell what was written and fail in the calls that they are told to fail.
#![tactic(auto)]

mod answer;
mod child_log;
mod conditions;
mod disk_log;
mod disk_reads;
mod disk_sides;
mod failing;
mod files;
mod images;
mod listing;
mod logged;
mod mem_disk;
mod mem_sink;
mod mem_source;
mod mem_tree;
mod reports;
mod rooms;
mod script_procs;
mod side_writes;
mod table;
mod tickets;

pub use answer::{Answer, AnswerList};
pub use child_log::{ChildLog, EventList};
pub use conditions::{can_answer, have_paths};
pub use files::read_text;
pub use listing::{is_listed, rising_names};
pub use mem_disk::MemDisk;
pub use mem_sink::MemSink;
pub use mem_source::MemSource;
pub use mem_tree::MemTree;
pub use reports::MemReports;
pub use rooms::RoomItems;
pub use script_procs::ScriptProcs;
