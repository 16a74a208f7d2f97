//! Whether lists of positions are the edges of a project.

ghost use Rattle.std.specs.Prelude.{◌≡◌, ◌≢◌, ◌↔◌, ℕ, ◌<◌, ◌≤◌, IsTrue, length, All};
ghost use Rattle.std.specs.List.Sorted.{IsStrictlyIncreasing};
ghost use Rattle.order.specs.BuildOrder.{AreEdges, deps_in};
ghost use Rattle.tests_vhdl.specs.Deps.{AreDeps};

use base::{Edges, FILE_LIMIT, Positions};

/// Whether positions rise strictly.
fn rises(deps: &[u32]) -> bool
    ensures { IsTrue result ↔ IsStrictlyIncreasing deps.now }
{
    for i in 1..deps.len() {
        if deps[i - 1] >= deps[i] {
            return false;
        }
    }
    true
}

/// Whether all positions are below an end.
fn are_below(deps: &[u32], end: usize) -> bool
    ensures { IsTrue result ↔ All (λ dep. dep < end) deps.now }
{
    for i in 0..deps.len() {
        if deps[i] as usize >= end {
            return false;
        }
    }
    true
}

/// Whether a position isn't among these.
fn lacks(deps: &[u32], file: usize) -> bool
    ensures { IsTrue result ↔ All (λ dep. dep ≢ file) deps.now }
{
    for i in 0..deps.len() {
        if deps[i] as usize == file {
            return false;
        }
    }
    true
}

/// Whether these can be the files that a file depends on.
fn are_deps(deps: &[u32], end: usize, file: usize) -> bool
    ensures { IsTrue result ↔ AreDeps end file deps.now }
{
    if !rises(deps) {
        return false;
    }
    if !are_below(deps, end) {
        return false;
    }
    lacks(deps, file)
}

/// Whether each of the lists can be what the file at its index depends on.
fn are_all_deps(edges: &[Positions]) -> bool
    ensures { IsTrue result ↔ ((file : ℕ) → file < length edges.now →
        AreDeps (length edges.now) file (deps_in edges.now file)) }
{
    for file in 0..edges.len() {
        if !are_deps(edges[file].as_slice(), edges.len(), file) {
            return false;
        }
    }
    true
}

/// Whether these are the edges of a project of at most 4,096 files: of each file the positions of other files, rising.
pub fn are_edges(edges: &Edges) -> bool
    ensures { IsTrue result ↔ AreEdges edges.now }
{
    let edges = edges.as_slice();
    if edges.len() > FILE_LIMIT {
        return false;
    }
    are_all_deps(edges)
}
