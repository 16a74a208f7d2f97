//! Files and streams of the system:
//!
//! - messages about failed calls of the system and about locations in files,
//! - the process that has locked a file,
//! - lines on standard error, which are dropped if there is no room for them,
//! - a disk over two files,
//! - reading of a reader or of a file, by lines, to its end or up to a limit,
//! - the present folder as a tree of files,
//! - standard input and standard output,
//! - reports in files,
//! - the number of records of a store that can't be read, which is counted as a run begins to read the store.
#![tactic(auto)]

mod beside;
mod buffered;
mod cause;
mod disk;
mod files;
mod holder;
mod kind;
mod line;
mod lines;
mod listing;
mod location;
mod look;
mod messages;
mod opening;
mod payloads;
mod protected_files;
mod reading;
mod reports;
mod side;
mod storage;
mod streams;
mod tree;
mod visible;
mod walk;
mod watched;
mod writing;

pub use buffered::Buffered;
pub use cause::{Cause, cause_line, name_cause};
pub use disk::FileDisk;
pub use files::{means_absent, read_file, read_regular_file};
pub use holder::lock_holder;
pub use line::{LINE_LIMIT, end_line, shorten_line};
pub use lines::{take_line, take_rest};
pub use listing::OUTPUT_FOLDER;
pub use location::{Location, location_line, location_of};
pub use look::{Unread, unread_records};
pub use messages::Messages;
pub use opening::STORE_NAMES;
pub use protected_files::ProtectedFiles;
pub use reading::{IoFault, Prefix, drain, read_prefix};
pub use reports::FileReports;
pub use streams::{StdSink, StdSource};
pub use tree::FileTree;
pub use visible::push_visible;
pub use watched::WatchedDisk;
