//! What the payloads of a store of requests stand for, as indices in their bytes: texts, products and records are taken up one
//! payload after the other, and nothing but names is copied.
#![tactic(auto)]

mod checking;
mod cutting;
mod held;
mod products;
mod putting;
mod table;
mod taking;
mod texts;

pub use checking::TextNumbers;
pub use cutting::{CutRequest, borrowed_cut, put_borrowed, take_payload};
pub use held::HeldPayloads;
pub use products::ProductRow;
pub use putting::put_request;
pub use table::{LocatedTable, RecordRow};
pub use taking::{number_name, number_names, taken_up};
pub use texts::{LocatedText, LocatedTexts, find_text, is_borrowed_from, put_text, text_at};
