//! Numbers of seeds, the child that a wait takes, and what a ticket was started for: for plain builds and runs that are fed the
//! ends of others.

use base::{Event, Request};

/// A pseudo-random number by a seed and a turn.
pub fn mixed(seed: u32, turn: u32) -> u32 {
    let mut x = seed.wrapping_mul(0x9e37_79b1) ^ turn.wrapping_mul(0x85eb_ca77);
    for _ in 0..3 {
        x ^= x / 32_768;
        x = x.wrapping_mul(0x2c1b_3c6d);
        x ^= x / 4_096;
    }
    x
}

/// A byte of a seed.
pub fn byte(seed: u32, turn: u32) -> u8 {
    (mixed(seed, turn) % 256) as u8
}

/// The index that a wait takes, of the first eight waits.
pub fn pick_of(picks: u32, wait: u32) -> u32 {
    if wait >= 8 {
        return 0;
    }
    let mut left = picks;
    for _ in 0..wait {
        left /= 16;
    }
    left % 16
}

/// Removes and returns the running child whose end a wait takes, or `None` if no child runs.
pub fn take_child(running: &mut Vec<u8>, picks: u32, wait: u32) -> Option<u8> {
    let count = running.len();
    if count == 0 {
        return None;
    }
    let index = pick_of(picks, wait) as usize % count;
    Some(running.remove(index))
}

/// The request that a ticket was started for, or `None` for a ticket without a start.
pub fn started_for<'a>(events: &'a [Event], ticket: u64) -> Option<&'a Request> {
    for event in events {
        match event {
            Event::Started {
                ticket: other,
                request,
            } => {
                if *other == ticket {
                    return Some(request);
                }
            }
            Event::Ended { ticket: _, exit: _ } | Event::Gone { ticket: _ } => {}
        }
    }
    None
}
