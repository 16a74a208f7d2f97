//! Whether names, commands, texts and dependencies have the sizes of a graph.

ghost use Rattle.std.specs.Prelude.{◌≡◌, ◌↔◌, ◌<◌, ◌≤◌, length, All, IsTrue};
ghost use Rattle.std.specs.List.Sorted.{IsStrictlyIncreasing};
ghost use Rattle.tests_graphs.specs.Validity.{FitsFile};

use base::{Entry, TEXT_LIMIT};
use base_bytes::is_command_within_limits;

/// Whether the name, the words and the text of a file are of the sizes of a graph.
pub fn fits_file(entry: &Entry) -> bool
    ensures { IsTrue result ↔ FitsFile entry.now }
{
    entry.name.is_within_limits()
        && is_command_within_limits(&entry.command)
        && entry.text.bytes().len() <= TEXT_LIMIT
}

/// Whether positions rise and are all below a rank.
pub fn rise_below(rank: u32, positions: &[u32]) -> bool
    ensures rising { IsTrue result → IsStrictlyIncreasing positions.now }
    ensures below { IsTrue result → All (λ position. position < rank) positions.now }
    ensures only { IsStrictlyIncreasing positions.now →
        All (λ position. position < rank) positions.now →
        IsTrue result }
{
    for i in 0..positions.len() {
        if positions[i] >= rank {
            return false;
        }
        if i > 0 && positions[i - 1] >= positions[i] {
            return false;
        }
    }
    true
}
