//! Whether the dependencies of each file hold their own, by flags.

ghost use Rattle.std.specs.Prelude.{◌≡◌, ◌≢◌, ◌↔◌, ℕ, ◌<◌, ◌≤◌, length, All, slice_index, IsTrue, IfOk, IfSome};
ghost use Rattle.tests_graphs.specs.Validity.{Covers, IsSeen, HasClosedDeps, IsBefore, HoldsAll};

use base::{Entry, NoMemory};
use std::alloc::Global;

/// A flag 1 at each of the positions, and 0 at all others.
fn visited_flags(alloc: Global, count: usize, deps: &[u32]) -> Result<Vec<u8>, NoMemory>
    requires { All (λ dep. dep < count) deps.now }
    ensures { IfOk result (λ state. IsSeen deps.now count state.items (length deps.now)) }
{
    let mut state = vec![in alloc; 0; count]?;
    for dep in deps {
        state[*dep as usize] = 1;
    }
    Ok(state)
}

/// Whether all positions are marked. Where they are, their flags become 2.
fn cover(state: &mut [u8], deps: &[u32]) -> bool
    requires { All (λ dep. dep < length state.old) deps.now }
    ensures length { length state.new ≡ length state.old }
    ensures held { IsTrue result → All (λ dep. slice_index state.old dep ≢ 0) deps.now }
    ensures flags { IsTrue result → Covers deps.now state.old state.new (length deps.now) }
    ensures only { All (λ dep. slice_index state.old dep ≢ 0) deps.now → IsTrue result }
{
    for dep in deps {
        if state[*dep as usize] == 0 {
            return false;
        }
        state[*dep as usize] = 2;
    }
    true
}

/// Whether the dependencies of each dependency are marked. A file whose flag is 2 stands among those of a file that was
/// looked at, and is passed over.
fn all_cover(state: &mut [u8], entries: &[Entry], deps: &[u32]) -> bool
    requires within { All (λ dep. dep < length state.old) deps.now }
    requires few { length state.old ≤ length entries.now }
    requires before { (k : ℕ) → k < length state.old → IsBefore entries.now k }
    requires closed { (k : ℕ) → k < length state.old → HasClosedDeps entries.now k }
    requires flagged { IsSeen deps.now (length state.old) state.old (length deps.now) }
    ensures { IsTrue result ↔ HoldsAll entries.now deps.now }
{
    let mut k = deps.len();
    while k > 0 {
        k -= 1;
        let dep = deps[k] as usize;
        if state[dep] == 1 && !cover(state, entries[dep].deps.as_slice()) {
            return false;
        }
    }
    true
}

/// Whether the file at a rank holds the dependencies of its dependencies, where all files before it do.
pub fn is_closed(alloc: Global, entries: &[Entry], rank: usize) -> Result<bool, NoMemory>
    requires rank { rank < length entries.now }
    requires before { (k : ℕ) → k ≤ rank → IsBefore entries.now k }
    requires closed { (k : ℕ) → k < rank → HasClosedDeps entries.now k }
    ensures { IfOk result (λ is. IsTrue is ↔ HasClosedDeps entries.now rank) }
{
    let deps = entries[rank].deps.as_slice();
    let mut state = visited_flags(alloc, rank, deps)?;
    Ok(all_cover(state.as_mut_slice(), entries, deps))
}
