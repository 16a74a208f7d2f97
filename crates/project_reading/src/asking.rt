//! What a tree is asked for.

ghost use Rattle.std.specs.Prelude.{◌≡◌, ◌∷◌, [], IfOk};
ghost use Rattle.outside.specs.Trees.{read_end, names_end, FitsReadLimit, IsListing};
ghost use Rattle.project_reading.specs.Sources.{ReadCounts, IsPlain};
ghost use Rattle.project_reading.specs.Asked.{AsksInOrder};

use crate::stops::ReadStop;
use base::Text;
use outside::{NamesEnd, ReadEnd, Tree, TreeFault};
use std::alloc::Global;

/// What is read of the file of a path, up to a limit.
pub(crate) fn read_file<T: Tree>(
    alloc: Global,
    tree: &mut T,
    path: &Text,
    limit: u64,
) -> Result<ReadEnd, ReadStop>
    ensures size { IfOk result (FitsReadLimit limit) }
    ensures bytes { T.tells → IfOk result (λ end. end ≡ read_end (T.file tree.old path.now) limit) }
    ensures stop { IsPlain result }
    ensures same { T.file tree.new ≡ T.file tree.old }
    ensures same_list { T.listed tree.new ≡ T.listed tree.old }
    ensures kept { T.kept tree.new ≡ T.kept tree.old }
    ensures asked { AsksInOrder result (path.now ∷ []) (T.asked tree.old) (T.asked tree.new) }
    ensures cause { ReadCounts result (T.failed_reads tree.old) (T.failed_reads tree.new) }
{
    match tree.read(alloc, path, limit) {
        Ok(end) => Ok(end),
        Err(TreeFault::NoMemory) => Err(ReadStop::NoMemory),
        Err(TreeFault::Failed) => Err(ReadStop::Failed),
    }
}

/// The names that a tree lists, up to a limit.
pub(crate) fn list_names<T: Tree>(
    alloc: Global,
    tree: &mut T,
    limit: u64,
) -> Result<NamesEnd, ReadStop>
    ensures form { IfOk result (IsListing limit) }
    ensures names { T.tells → IfOk result (λ end. end ≡ names_end (T.listed tree.old) limit) }
    ensures stop { IsPlain result }
    ensures same { T.file tree.new ≡ T.file tree.old }
    ensures same_list { T.listed tree.new ≡ T.listed tree.old }
    ensures kept { T.kept tree.new ≡ T.kept tree.old }
    ensures asked { T.asked tree.new ≡ T.asked tree.old }
    ensures cause { ReadCounts result (T.failed_reads tree.old) (T.failed_reads tree.new) }
{
    match tree.names(alloc, limit) {
        Ok(end) => Ok(end),
        Err(TreeFault::NoMemory) => Err(ReadStop::NoMemory),
        Err(TreeFault::Failed) => Err(ReadStop::Failed),
    }
}
