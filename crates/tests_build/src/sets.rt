//! Sets of at most 8 files, as bits.

static BITS: [u8; 8] = [1, 2, 4, 8, 16, 32, 64, 128];

pub(super) fn has(set: u8, at: u8) -> bool {
    set & BITS[(at % 8) as usize] != 0
}

pub(super) fn with(set: u8, at: u8) -> u8 {
    set | BITS[(at % 8) as usize]
}

/// The files below a count.
pub(super) fn upto(count: u8) -> u8 {
    let mut set = 0;
    for at in 0..8u8 {
        if at < count {
            set = with(set, at);
        }
    }
    set
}
