//! The plan of a build.

ghost use Rattle.std.specs.Prelude.{◌≡◌, ◌↔◌, ◌<◌, false, not, IsTrue, length, All, IfOk};
ghost use Rattle.std.specs.List.{list_all};
ghost use Rattle.outside.specs.Records.{IsRecorded, deps_at};
ghost use Rattle.run_scheduler.specs.Plans.{is_fresh, is_later, need_at, ArePlanned, ArePlannedTo};

use base::{FILE_LIMIT, Graph, Items, NoMemory};
use outside::Records;
use std::alloc::Global;

/// The need of a file: what a build does with it.
#[derive(Clone, Copy, Debug, PartialEq, Eq)]
pub enum Need {
    /// Nothing: its record is current over files that are all fresh.
    Fresh,
    /// A compilation, over files that are all fresh.
    Stale,
    /// A later check: some dependency isn't fresh, so its record can be checked only once all dependencies are made.
    Later,
}

/// One need for each file of a graph, in order.
pub type Needs = Items<Need>;

/// The file at a position is fresh.
fn is_fresh_at(needs: &[Need], at: u32) -> bool
    requires { at < length needs.now }
    ensures { result ≡ is_fresh (need_at needs.now at) }
{
    match needs[at as usize] {
        Need::Fresh => true,
        Need::Stale => false,
        Need::Later => false,
    }
}

/// All these files are fresh.
fn are_fresh(needs: &[Need], deps: &[u32]) -> bool
    requires { All (λ dep. dep < length needs.now) deps.now }
    ensures { result ≡ list_all (λ dep. is_fresh (need_at needs.now dep)) deps.now }
{
    for dep in deps {
        if !is_fresh_at(needs, *dep) {
            return false;
        }
    }
    true
}

/// The need of the file at a position, by the needs of the files before it.
fn need_of<K: Records>(graph: &Graph, store: &K, needs: &[Need], at: u32) -> Need
    requires at { at < length graph.now }
    requires over { K.is_over store.now graph.now }
    requires planned { ArePlannedTo graph.now (IsRecorded (K.latest_of store.now) graph.now)
        needs.now at }
    ensures later { is_later result ≡
        not (list_all (λ dep. is_fresh (need_at needs.now dep)) (deps_at graph.now at)) }
    ensures fresh { is_later result ≡ false →
        IsTrue (is_fresh result) ↔ IsRecorded (K.latest_of store.now) graph.now at }
{
    if !are_fresh(needs, graph.get(at as u64).deps.as_slice()) {
        return Need::Later;
    }
    if store.is_current(graph, at) {
        Need::Fresh
    } else {
        Need::Stale
    }
}

/// The plan of a build. A file with a dependency that isn't fresh is checked later. Any other file is fresh if its latest record
/// has the request that would be made now, and stale otherwise. The store isn't asked about a file that is checked later.
pub fn plan<K: Records>(alloc: Global, graph: &Graph, store: &K) -> Result<Needs, NoMemory>
    requires { K.is_over store.now graph.now }
    ensures { IfOk result
        (ArePlanned graph.now (IsRecorded (K.latest_of store.now) graph.now)) }
{
    // The dependencies of a file come before it.
    prove!(graph.len() <= FILE_LIMIT as u64);
    let mut needs = Vec::new(alloc);
    for at in 0..graph.len() as u32 {
        let need = need_of(graph, store, needs.as_slice(), at);
        needs.push(need)?;
    }
    Ok(Needs::from_vec(needs))
}
