//! The store of requests on a disk, as payloads of a journal. A record has the request to a compiler and the artefact that the
//! compiler gave. Each text and each product is stored once.
//!
//! - The loaded payloads say which records are the latest, and which files of a graph have a current record.
//! - Compaction keeps the latest records, and the products and texts that they need, by numbers.
//! - The takeover turns the records of a store of the earlier form, which are records of the views of nodes, into records of
//!   requests.
#![tactic(auto)]

mod additions;
mod asking;
mod compacting;
mod compaction_laws;
mod fitting;
mod handles;
mod laws;
mod loaded;
mod loading;
mod parts;
mod plan;
mod reading;
mod records;
mod rows;
mod sizes;
mod store;
mod takeover;
mod walking;
mod words;
mod writing;

pub use additions::{NextRequest, RequestAddition};
pub use compaction_laws::laws_of_request_compaction;
pub use handles::{RecordHandle, RecordHandles};
pub use laws::{laws_of_disks_without_requests, laws_of_request_stores};
pub use loaded::LoadedStore;
pub use loading::RequestVisitor;
pub use plan::{CompactionPlan, CompactionStep, ProductStep, RequestStep};
pub use store::{PreparedRequest, RequestStore};
pub use takeover::taken_over;
pub use walking::plan_latest;
pub use writing::compacted_payloads;
