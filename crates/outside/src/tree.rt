//! A tree of files: what it lists, what it gives, and what it was asked for.
ghost use Rattle.std.specs.Prelude.{◌≡◌, ℕ, List, [], Option, IfOk};
ghost use Rattle.outside.specs.Counts.{TreeCounts};
ghost use Rattle.outside.specs.Trees.{IsListing, IsListOf, names_end, read_end, FitsReadLimit, Asks, HoldsSame};

use base::{Text, TextList};
use std::alloc::Global;

/// A listing of a tree, or that it would have more names than were asked for.
#[derive(Drop)]
pub enum NamesEnd {
    Got(TextList),
    TooMany,
}

/// The bytes of a file, or why they were not read.
#[derive(Drop)]
pub enum ReadEnd {
    Got(Text),
    Absent,
    /// The file has more bytes than were asked for.
    TooLong,
}

/// Why a file was not read, or the names were not listed.
#[derive(Clone, Copy, Debug, PartialEq, Eq)]
pub enum TreeFault {
    NoMemory,
    Failed,
}

/// A tree of files, which no call changes.
pub trait Tree {
    /// Whether the tree tells what it holds.
    ghost tells: { Type 0 };

    /// The bytes of the file of a path, if there is one.
    ghost file: { Self → List ℕ → Option (List ℕ) };

    /// The paths that are listed, strictly rising by bytes. A path below `vunit_out`, one with a component that
    /// begins with a dot and one of over 1,024 bytes isn't listed and doesn't count.
    ghost listed: { Self → List (List ℕ) };

    /// What no call changes.
    ghost Kept: { Type 0 };

    /// What this tree keeps over all calls: over which objects it stands, and what they hold.
    ghost kept: { Self → Kept };

    /// The paths that `read` was asked for, in order, since the tree last forgot them. Every object tells them.
    ghost asked: { Self → List (List ℕ) };

    /// How often the tree has failed.
    ghost failed_reads: { Self → ℕ };

    /// The paths that are listed, or `TooMany` exactly where there are more than `limit`.
    fn names(&mut self, alloc: Global, limit: u64) -> Result<NamesEnd, TreeFault>
        ensures form { IfOk result (IsListing limit) }
        ensures names { tells → IfOk result (λ end. end ≡ names_end (listed self.old) limit) }
        ensures same { file self.new ≡ file self.old }
        ensures same_list { listed self.new ≡ listed self.old }
        ensures kept { kept self.new ≡ kept self.old }
        ensures asked { asked self.new ≡ asked self.old }
        ensures cause { TreeCounts result (failed_reads self.old) (failed_reads self.new) };

    /// The bytes of a file. The answer is `Absent` exactly if the tree has no file of that path, and `TooLong` exactly if the file
    /// has more than `limit` bytes.
    fn read(&mut self, alloc: Global, path: &Text, limit: u64) -> Result<ReadEnd, TreeFault>
        ensures size { IfOk result (FitsReadLimit limit) }
        ensures bytes { tells →
            IfOk result (λ end. end ≡ read_end (file self.old path.now) limit) }
        ensures same { file self.new ≡ file self.old }
        ensures same_list { listed self.new ≡ listed self.old }
        ensures kept { kept self.new ≡ kept self.old }
        ensures asked { Asks result path.now (asked self.old) (asked self.new) }
        ensures cause { TreeCounts result (failed_reads self.old) (failed_reads self.new) };

    /// Lets go of the paths that were asked for so far. It takes no memory.
    fn forget(&mut self, alloc: Global)
        ensures kept { kept self.new ≡ kept self.old }
        ensures same { file self.new ≡ file self.old }
        ensures same_list { listed self.new ≡ listed self.old }
        ensures asked { asked self.new ≡ [] }
        ensures no_fault { failed_reads self.new ≡ failed_reads self.old };

    /// Trees that keep the same hold and list the same.
    ghost holds: { (a b : Self) → kept a ≡ kept b →
        HoldsSame (file a) (file b) (listed a) (listed b) };

    /// What is listed are the paths that have a file and the form of a listed path.
    ghost lists: { (tree : Self) → IsListOf (file tree) (listed tree) };
}
