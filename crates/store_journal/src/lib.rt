//! A list of payloads on the two sides of a disk that may lose power at any moment. A payload counts once the commit byte
//! before it is open, and that is written alone, after all that comes after it.
#![tactic(auto)]

mod clearing;
mod dead_bytes;
mod finding;
mod journal;
mod layout;
mod making;
mod opening;
mod payloads;
mod reading;
mod ready;
mod sides;
mod visitor;
mod windows;

pub use dead_bytes::DEAD_LIMIT;
pub use finding::FoundForm;
pub use journal::Journal;
pub use opening::Opened;
pub use payloads::Payloads;
pub use ready::{Ready, ReadySide};
pub use visitor::Visitor;
