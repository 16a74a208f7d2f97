//! A call of a disk.
use crate::RoomItems;
use base::Text;
use outside::Side;

/// What a call of a disk does to a side.
#[derive(Drop)]
pub enum Act {
    Write { at: u64, bytes: Text },
    Cut,
    Sync,
}

/// A call of a disk: its number, its side, what it does, and whether it was done or failed inside.
#[derive(Drop)]
pub struct LoggedCall {
    pub number: u64,
    pub side: Side,
    pub act: Act,
    pub done: bool,
}

/// The calls of a disk that may have changed it, in order.
pub type LoggedCalls = RoomItems<LoggedCall>;
