//! The process that has locked a file, as Linux lists locks.

use std::os::unix::fs::MetadataExt;
use std::{fs, process};

/// The list of the locks of all files.
const LOCKS: &str = "/proc/locks";

/// The number of the other process that has locked a file by `flock`, if that is known.
pub fn lock_holder(rt: &HostRuntime, path: &str) -> Option<u64> {
    let inode = fs::metadata(rt, path).ok()?.ino();
    let own = u64::from(process::id(rt.process()));
    let locks = fs::read_to_string(rt, LOCKS).ok()?;
    for line in locks.as_str().lines() {
        if let Some(holder) = holder_in(line, inode) {
            if holder != own {
                return Some(holder);
            }
        }
    }
    None
}

/// The process of one line, as `1: FLOCK  ADVISORY  WRITE 1234 08:01:5678 0 EOF`, where it is of a file of this number.
fn holder_in(line: &str, inode: u64) -> Option<u64> {
    let mut words = line.split_whitespace();
    let _number = words.next()?;
    if words.next()? != "FLOCK" {
        return None;
    }
    let _advisory = words.next()?;
    let _write = words.next()?;
    let holder = words.next()?.parse::<u64>().ok()?;
    let (_device, file) = words.next()?.rsplit_once(':')?;
    if file.parse::<u64>().ok()? == inode {
        Some(holder)
    } else {
        None
    }
}
