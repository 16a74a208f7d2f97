//! What one more payload adds.

use crate::ListRow;
use passes_codec::PassRanges;
use store_journal::Ready;

/// What stands for a list: its number, or the rows of a new one.
#[derive(Drop)]
pub enum ListPart {
    Known(usize),
    New(ListRow),
}

/// What stands for the list of a payload, and how many texts the list adds.
#[derive(Drop)]
pub struct FoundList {
    pub part: ListPart,
    pub count: usize,
}

/// A pass: the ranges of its parts in its payload, and its list.
#[derive(Drop)]
pub struct PassAddition {
    pub draft: PassRanges,
    pub list: FoundList,
}

/// A payload that is ready to be committed, and what it adds.
#[derive(Drop)]
pub struct NextPass {
    pub segment: Ready,
    pub addition: PassAddition,
}
