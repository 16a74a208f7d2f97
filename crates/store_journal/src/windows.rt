//! A window on a side. Reading window by window avoids holding the whole side in memory.

ghost use Rattle.std.specs.Prelude.{◌≡◌, ◌≤◌, ◌+◌, ◌↔◌, ℕ, List, length, IsTrue, OnOk};
ghost use Rattle.outside.specs.Counts.{StoreCounts};
ghost use Rattle.outside.specs.Disks.{side_of, bytes_at, Goes};
ghost use Rattle.store_journal.specs.Windows.{IsWindowOf, Covers};

use crate::layout::Live;
use outside::{Disk, StoreFault};
use std::alloc::Global;

/// The number of bytes of a side that are read at once, unless fewer are left.
pub const WINDOW: u64 = 131_072;

/// The `count` bytes from the offset `start` on.
#[derive(Clone, Copy)]
pub struct Span {
    pub start: u64,
    pub count: u64,
}

/// Bytes of a side, from an offset on. Their buffer is filled anew as a side is read on.
#[derive(Drop)]
pub struct Window {
    pub start: u64,
    pub bytes: Vec<u8>,
}

impl Window {
    /// No byte, which takes no memory.
    pub fn new(alloc: Global) -> Window
        ensures { (reads : List ℕ) → IsWindowOf reads result }
    {
        Window {
            start: 0,
            bytes: Vec::new(alloc),
        }
    }

    /// Whether the window has all bytes of a span.
    fn has(&self, span: Span) -> bool
        ensures { IsTrue result ↔ Covers self.now span.start span.count }
    {
        if span.start < self.start {
            return false;
        }
        let before = span.start - self.start;
        let len = self.bytes.len() as u64;
        before <= len && span.count <= len - before
    }

    /// Bytes that are among these, borrowed.
    pub fn slice(&self, span: Span) -> &[u8]
        requires { Covers self.now span.start span.count }
        ensures is { (reads : List ℕ) → IsWindowOf reads self.now →
            result.now ≡ bytes_at span.start span.count reads }
        ensures long { length result.now ≡ span.count }
    {
        let first = (span.start - self.start) as usize;
        let end = first + span.count as usize;
        &self.bytes[first..end]
    }
}

/// The number of bytes to read at once: at least `count` and at most `left`.
fn window_size(count: u64, left: u64) -> u64
    requires { count ≤ left }
    ensures enough { count ≤ result }
    ensures within { result ≤ left }
{
    if left < WINDOW {
        return left;
    }
    if count < WINDOW { WINDOW } else { count }
}

/// Refills the window from the start of a span of the live side, unless it has all bytes of the span.
pub fn cover<D: Disk>(
    disk: &mut D,
    live: Live,
    window: &mut Window,
    span: Span,
) -> Result<(), StoreFault>
    requires within { span.start + span.count ≤ live.len }
    requires len { D.tells →
        live.len ≡ length (side_of live.side (D.moments disk.old).now).reads }
    requires window { D.tells →
        IsWindowOf (side_of live.side (D.moments disk.old).now).reads window.old }
    ensures window { D.tells →
        OnOk result (IsWindowOf (side_of live.side (D.moments disk.old).now).reads window.new) }
    ensures covers { OnOk result (Covers window.new span.start span.count) }
    ensures same { D.tells → OnOk result ((D.moments disk.new).now ≡ (D.moments disk.old).now) }
    ensures moments { D.tells →
        Goes (D.moments disk.old).now (D.moments disk.old) (D.moments disk.new) }
    ensures cause { StoreCounts result (D.failed_disk_calls disk.old)
        (D.failed_disk_calls disk.new) }
{
    if window.has(span) {
        return Ok(());
    }
    let size = window_size(span.count, live.len - span.start);
    window.bytes.resize(size as usize, 0)?;
    disk.read(live.side, span.start, &mut window.bytes)?;
    window.start = span.start;
    Ok(())
}
