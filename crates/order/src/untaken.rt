//! The files of a project that are not yet taken, and which file is taken next.

ghost use Rattle.std.specs.Prelude.{◌≡◌, ℕ, List, [], ◌∷◌, ◌++◌, ◌<◌, ◌≤◌, false, length, IfOk, OnOk};
ghost use Rattle.std.specs.Option.{IfSome};
ghost use Rattle.order.specs.Waits.{file_count};
ghost use Rattle.order.specs.BuildOrder.{AreEdges, first_free, has_taken};
ghost use Rattle.order.specs.Untakens.{AreWaiting, IsUntaken, IsUntakenTo};

use crate::ReadyFiles;
use base::{Edges, FILE_LIMIT, NoMemory, Positions};
use std::alloc::Global;

/// Notes what the files depend on.
fn add_files(left: &mut ReadyFiles, edges: &[Positions]) -> Result<(), NoMemory>
    requires few { length edges.now ≤ FILE_LIMIT }
    requires edges { AreEdges edges.now }
    requires left { IsUntakenTo left.old edges.now 0 }
    ensures { OnOk result (IsUntaken left.new edges.now []) }
{
    for file in 0..edges.len() {
        let deps = edges[file].as_slice();
        left.depends(file as u32, deps, deps.len())?;
    }
    Ok(())
}

/// Nothing was taken yet.
pub(crate) fn none_taken(alloc: Global, edges: &Edges) -> Result<ReadyFiles, NoMemory>
    requires { AreEdges edges.now }
    ensures { IfOk result (λ left. IsUntaken left edges.now []) }
{
    let edges = edges.as_slice();
    let waiting = vec![in alloc; true; edges.len()]?;
    let mut left = ReadyFiles::new(alloc, waiting)?;
    add_files(&mut left, edges)?;
    Ok(left)
}

/// The first file that can be taken.
pub(crate) fn next_free(left: &ReadyFiles) -> Option<u32>
    ensures within { IfSome result (λ at. at < file_count left.now) }
    ensures first { (edges : List (List ℕ)) (taken : List ℕ) → IsUntaken left.now edges taken →
        result ≡ first_free edges taken }
{
    left.next()
}

/// A file that wasn't taken is taken.
pub(crate) fn take(left: &mut ReadyFiles, at: u32)
    requires { at < file_count left.old }
    ensures { (edges : List (List ℕ)) (taken : List ℕ) → IsUntaken left.old edges taken →
        has_taken taken at ≡ false → IsUntaken left.new edges (taken ++ at ∷ []) }
{
    left.take(at);
    left.finish(at);
}

/// Of each file whether it wasn't taken.
pub(crate) fn untaken(left: &ReadyFiles) -> &[bool]
    ensures { (edges : List (List ℕ)) (taken : List ℕ) → IsUntaken left.now edges taken →
        AreWaiting result.now (length edges) taken }
{
    left.waiting_flags()
}
