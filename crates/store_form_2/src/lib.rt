//! The payloads of form 2, a store that keeps each text and each node once: their bytes, and what they stand for.
//! Texts, nodes and records are located in these bytes, and taken up one payload after the other. Only names, words and
//! numbers are copied. Names and commands are kept once. A node is a row of numbers: numbers alone decide whether a new one
//! fits its dependencies. It stands for the view of its number in the list of all nodes, so no definition recurses over nodes.
//! Texts whose fingerprints are equal, since they only differ between its 16 segments, are compared one after the other. That
//! takes time and changes no answer.
//! Then: which records of requests stand for records of views, found by numbers.
#![tactic(auto)]

mod commands;
mod contents;
mod current;
mod drafts;
mod kept_view;
mod listing;
mod migration_laws;
mod names;
mod node_checks;
mod node_laws;
mod ranks;
mod reading;
mod records;
mod rows;
mod segments;
mod standing;
mod sums;
mod table;
mod taking;
mod texts;

pub use commands::Command;
pub use contents::ContentsLocations;
pub use kept_view::Record;
pub use migration_laws::{laws_of_migration, laws_of_node_requests};
pub use node_checks::NodeCheck;
pub use node_laws::{laws_of_new_nodes, laws_of_nodes};
pub use ranks::migrated_rows;
pub use reading::{DraftSpans, PayloadSpans, read_payload};
pub use records::{RecordLocation, RecordLocations};
pub use rows::Row;
pub use segments::Segments;
pub use table::NodeTable;
pub use taking::contents_of;
pub use texts::{TextLocation, TextLocations, text_at};
