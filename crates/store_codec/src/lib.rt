//! Records of requests, and the payloads of a store that keeps each text and each product once: their bytes, and what they
//! stand for.
#![tactic(auto)]

mod laws;
mod layout;
mod reading;
mod writing;

pub use laws::{laws_of_record_tables, laws_of_request_payloads};
pub use layout::{RequestLayout, request_layout};
pub use reading::{PayloadRanges, ProductRanges, RequestRanges, read_request_payload};
pub use writing::{
    ProductParts, RequestParts, TextPart, product_payload, put_part, request_payload,
    spelled_words, write_request,
};
