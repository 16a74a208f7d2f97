//! The bytes of a side, of which one window is held at a time.

use std::alloc::Global;
use std::fs::{File, OpenOptions};
use std::io::{Seek, SeekFrom};
use std::os::unix::fs::FileExt;

/// The number of bytes that are read at once, unless fewer are left. The product numbers of a record take fewer bytes.
pub const WINDOW: usize = 32_768;

/// An open file of a store, and some of its bytes.
#[derive(Drop)]
pub struct SideBytes {
    alloc: Global,
    file: File,
    len: u64,
    start: u64,
    held: Vec<u8>,
}

impl SideBytes {
    /// The file of a path, if it can be read.
    pub fn open(rt: &HostRuntime, path: &str) -> Option<SideBytes> {
        let mut file = OpenOptions::new().read(true).open(rt, path).ok()?;
        let len = file.seek(SeekFrom::End(0)).ok()?;
        Some(SideBytes {
            alloc: rt.alloc(),
            file,
            len,
            start: 0,
            held: Vec::new(rt.alloc()),
        })
    }

    /// How many bytes there were when it was opened.
    pub fn len(&self) -> u64 {
        self.len
    }

    /// The `count` bytes from an offset on, at most a window, if the file has them.
    pub fn bytes(&mut self, at: u64, count: usize) -> Option<&[u8]> {
        if at < self.start || at.saturating_add(count as u64) > self.end_of_held() {
            self.refill(at)?;
        }
        let first = usize::try_from(at.saturating_sub(self.start)).ok()?;
        self.held.as_slice().get(first..first.saturating_add(count))
    }

    fn end_of_held(&self) -> u64 {
        self.start.saturating_add(self.held.len() as u64)
    }

    /// Reads a window from an offset on, or up to the end of the file if that comes first.
    fn refill(&mut self, at: u64) -> Option<()> {
        let left = self.len.saturating_sub(at).min(WINDOW as u64);
        let count = usize::try_from(left).ok()?;
        // (to make zeros at once is much faster than to add them)
        if self.held.len() < count {
            self.held = vec![in self.alloc; 0; count].ok()?;
        }
        self.held.truncate(count);
        self.start = at;
        if self
            .file
            .read_exact_at(self.held.as_mut_slice(), at)
            .is_err()
        {
            self.held.clear();
            return None;
        }
        Some(())
    }
}
