//! An input that is taken and an output that is put.
ghost use Rattle.std.specs.Prelude.{◌≡◌, ℕ, List, [], IfOk, OnOk};
ghost use Rattle.outside.specs.Counts.{SourceCounts, SinkCounts};
ghost use Rattle.outside.specs.Streams.{take_end, IsTaken, line_end, after_line, FitsLine, Puts};

use base::Text;
use std::alloc::Global;

/// The whole input, or that it has more bytes than were asked for.
#[derive(Drop)]
pub enum TakeEnd {
    Got(Text),
    TooLong,
}

/// A line of the input without its line feed, that the input has ended, or that the line has more bytes than were asked
/// for.
#[derive(Drop)]
pub enum LineEnd {
    Got(Text),
    End,
    TooLong,
}

/// Why the input was not taken.
#[derive(Clone, Copy, Debug, PartialEq, Eq)]
pub enum SourceFault {
    NoMemory,
    Failed,
}

/// Why the output was not put whole.
#[derive(Clone, Copy, Debug, PartialEq, Eq)]
pub enum SinkFault {
    Failed,
}

/// An input that is read by lines, or to its end.
pub trait Source {
    /// Whether the source tells what it holds.
    ghost tells: { Type 0 };

    /// What remains of the input.
    ghost left: { Self → List ℕ };

    /// How often the source has failed.
    ghost failed_takes: { Self → ℕ };

    /// The next line, where it has at most `limit` bytes. A last line without a line feed counts, and every other byte
    /// is part of its line. After `TooLong` the whole line is taken.
    fn take_line(&mut self, alloc: Global, limit: u64) -> Result<LineEnd, SourceFault>
        ensures size { IfOk result (FitsLine limit) }
        ensures line { tells → IfOk result (λ end. end ≡ line_end (left self.old) limit) }
        ensures left { tells → OnOk result (left self.new ≡ after_line (left self.old)) }
        ensures cause { SourceCounts result (failed_takes self.old) (failed_takes self.new) };

    /// What remains of the input to its end, where that has at most `limit` bytes.
    fn take(&mut self, alloc: Global, limit: u64) -> Result<TakeEnd, SourceFault>
        ensures size { IfOk result (IsTaken limit) }
        ensures input { tells → IfOk result (λ end. end ≡ take_end (left self.old) limit) }
        ensures taken { tells → OnOk result (left self.new ≡ []) }
        ensures cause { SourceCounts result (failed_takes self.old) (failed_takes self.new) };
}

/// An output that grows at its end. A sink that finds no memory counts a fault.
pub trait Sink {
    /// Whether the sink tells what it holds.
    ghost tells: { Type 0 };

    /// What was put so far.
    ghost contents: { Self → List ℕ };

    /// How often the sink has failed.
    ghost failed_puts: { Self → ℕ };

    /// Puts all bytes at the end. After a fault a prefix of them was put.
    fn put(&mut self, bytes: &[u8]) -> Result<(), SinkFault>
        ensures contents { tells → Puts result bytes.now (contents self.old) (contents self.new) }
        ensures cause { SinkCounts result (failed_puts self.old) (failed_puts self.new) };
}
