//! Tests of the objects in memory and of the journal over them.
//! Tests of the store of requests over a disk in memory, and of the bytes of payloads of both forms.
//! Tests of the parts of a store of requests.
//! Tests of the store of passes over a disk in memory.
#![tactic(auto)]

#[cfg(test)]
mod tests;
pub mod trials;
