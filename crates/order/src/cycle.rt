//! The cycle that is reported where some files can't be taken.

ghost use Rattle.std.specs.Prelude.{◌≡◌, ℕ, List, [], ◌<◌, ◌≤◌, suc, length, drop, All, IfOk};
ghost use Rattle.base.specs.View.{rank_in};
ghost use Rattle.order.specs.BuildOrder.{AreEdges, deps_in, first_untaken, untaken_dep, repeated};
ghost use Rattle.order.specs.Untakens.{AreWaiting};

use base::{Edges, FILE_LIMIT, NoMemory, Positions};
use std::alloc::Global;

/// The first file that waits.
fn first_waiting(waiting: &[bool]) -> u32
    requires few { length waiting.now ≤ FILE_LIMIT }
    requires some { 0 < length waiting.now }
    ensures within { result < length waiting.now }
    ensures first { (edges : List (List ℕ)) (taken : List ℕ) →
        AreWaiting waiting.now (length edges) taken → result ≡ first_untaken edges taken }
{
    for file in 0..waiting.len() {
        if waiting[file] {
            return file as u32;
        }
    }
    0
}

/// The first of the files that a file depends on that waits.
fn next_waiting(waiting: &[bool], deps: &[u32], file: u32) -> u32
    requires file { file < length waiting.now }
    requires deps { All (λ dep. dep < length waiting.now) deps.now }
    ensures within { result < length waiting.now }
    ensures next { (edges : List (List ℕ)) (taken : List ℕ) →
        AreWaiting waiting.now (length edges) taken → deps.now ≡ deps_in edges file →
        result ≡ untaken_dep edges taken file }
{
    for dep in deps {
        if waiting[*dep as usize] {
            return *dep;
        }
    }
    file
}

/// Where a file comes first.
fn rank_of(passed: &[u32], file: u32) -> usize
    ensures within { result ≤ length passed.now }
    ensures rank { result ≡ rank_in passed.now file }
{
    for rank in 0..passed.len() {
        if passed[rank] == file {
            return rank;
        }
    }
    passed.len()
}

/// What was passed from the first time on that a file came.
fn since(alloc: Global, passed: &[u32], file: u32) -> Result<Positions, NoMemory>
    ensures { IfOk result (λ files. files ≡ drop (rank_in passed.now file) passed.now) }
{
    let rank = rank_of(passed, file);
    Ok(Positions::from_vec(Vec::from_slice(alloc, &passed[rank..])?))
}

/// The cycle that is met from the first file that waits, by the first dependency that waits each time. It takes time in
/// proportion to files and edges.
pub(crate) fn cycle_of(
    alloc: Global,
    edges: &Edges,
    waiting: &[bool],
) -> Result<Positions, NoMemory>
    requires are { AreEdges edges.now }
    requires some { 0 < length edges.now }
    requires as_many { length waiting.now ≡ length edges.now }
    ensures { IfOk result (λ files. (taken : List ℕ) →
        AreWaiting waiting.now (length edges.now) taken →
        files ≡ repeated (untaken_dep edges.now taken) (suc (length edges.now)) []
        (first_untaken edges.now taken)) }
{
    let edges = edges.as_slice();
    let mut is_passed = vec![in alloc; false; edges.len()]?;
    let mut passed = Vec::new(alloc);
    let mut file = first_waiting(waiting);
    for _step in 0..edges.len() + 1 {
        if is_passed[file as usize] {
            return since(alloc, passed.as_slice(), file);
        }
        is_passed[file as usize] = true;
        passed.push(file)?;
        file = next_waiting(waiting, edges[file as usize].as_slice(), file);
    }
    Ok(Positions::new(alloc))
}
