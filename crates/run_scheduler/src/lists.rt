//! The lists of a machine: which files were checked, which are made, which are to be started, and which wait for a check.

ghost use Rattle.std.specs.Prelude.{◌≡◌, ℕ, ◌+◌, ◌<◌, ◌≤◌, ◌==◌, ◌&&◌, Bool, true, false, not, List, length, All, slice_index_or, slice_set, IfOk, OnOk};
ghost use Rattle.outside.specs.Records.{deps_at};
ghost use Rattle.base_collections.specs.Positions.{has};
ghost use Rattle.order.specs.Counts.{undone};
ghost use Rattle.order.specs.Waits.{AreWaitingFiles, file_count, wait_count};
ghost use Rattle.run_scheduler.specs.Plans.{is_fresh, is_stale, is_later, need_at};
ghost use Rattle.run_scheduler.specs.Counts.{AreCountedTo};

use crate::Need;
use base::{FILE_LIMIT, Graph, NoMemory};
use base_collections::PositionSet;
use order::ReadyFiles;
use std::alloc::Global;

fn is_fresh_need(need: Need) -> bool
    ensures { result ≡ is_fresh need }
{
    match need {
        Need::Fresh => true,
        Need::Stale => false,
        Need::Later => false,
    }
}

fn is_stale_need(need: Need) -> bool
    ensures { result ≡ is_stale need }
{
    match need {
        Need::Fresh => false,
        Need::Stale => true,
        Need::Later => false,
    }
}

fn is_later_need(need: Need) -> bool
    ensures { result ≡ is_later need }
{
    match need {
        Need::Fresh => false,
        Need::Stale => false,
        Need::Later => true,
    }
}

/// The fresh files, which are made from the start.
pub(crate) fn fresh_files(alloc: Global, needs: &[Need]) -> Result<Vec<bool>, NoMemory>
    ensures count { IfOk result (λ fresh. length fresh.items ≡ length needs.now) }
    ensures fresh { IfOk result (λ fresh. (at : ℕ) → at < length needs.now →
        slice_index_or fresh.items at false ≡ is_fresh (need_at needs.now at)) }
{
    let mut fresh = Vec::new(alloc);
    for need in needs {
        fresh.push(is_fresh_need(*need))?;
    }
    Ok(fresh)
}

/// The files that are checked later.
pub(crate) fn later_files(alloc: Global, needs: &[Need]) -> Result<Vec<bool>, NoMemory>
    ensures count { IfOk result (λ later. length later.items ≡ length needs.now) }
    ensures later { IfOk result (λ later. (at : ℕ) → at < length needs.now →
        slice_index_or later.items at false ≡ is_later (need_at needs.now at)) }
{
    let mut later = Vec::new(alloc);
    for need in needs {
        later.push(is_later_need(*need))?;
    }
    Ok(later)
}

/// The files that need no check.
pub(crate) fn checked_files(alloc: Global, needs: &[Need]) -> Result<Vec<bool>, NoMemory>
    ensures count { IfOk result (λ checked. length checked.items ≡ length needs.now) }
    ensures checked { IfOk result (λ checked. (at : ℕ) → at < length needs.now →
        slice_index_or checked.items at false ≡ not (is_later (need_at needs.now at))) }
{
    let mut checked = Vec::new(alloc);
    for need in needs {
        checked.push(!is_later_need(*need))?;
    }
    Ok(checked)
}

/// The files that can be started at once.
pub(crate) fn stale_files(needs: &[Need]) -> PositionSet
    requires { length needs.now ≤ FILE_LIMIT }
    ensures stale { (at : ℕ) → at < length needs.now →
        has result at ≡ is_stale (need_at needs.now at) }
    ensures past { (at : ℕ) → length needs.now ≤ at → has result at ≡ false }
{
    let mut stale = PositionSet::new();
    for at in 0..needs.len() {
        if is_stale_need(needs[at]) {
            stale.insert(at as u32);
        }
    }
    stale
}

/// What a file depends on.
fn deps_of(graph: &Graph, at: usize) -> &[u32]
    requires { at < length graph.now }
    ensures deps { result.now ≡ deps_at graph.now at }
    ensures below { All (λ dep. dep < length graph.now) result.now }
{
    graph.get(at as u64).deps.as_slice()
}

/// How many of these files aren't made.
fn count_unmade(deps: &[u32], made: &[bool]) -> usize
    requires { All (λ dep. dep < length made.now) deps.now }
    ensures { result ≡ undone (λ dep. slice_index_or made.now dep false) deps.now }
{
    let mut count = 0;
    for dep in deps {
        if !made[*dep as usize] {
            count += 1;
        }
    }
    count
}

/// Notes what a file depends on, where it is checked later.
fn count_file(
    graph: &Graph,
    checked: &[bool],
    made: &[bool],
    later: &mut ReadyFiles,
    at: usize,
) -> Result<(), NoMemory>
    requires at { at < length graph.now }
    requires few { length graph.now ≤ FILE_LIMIT }
    requires checked { length checked.now ≡ length graph.now }
    requires made { length made.now ≡ length graph.now }
    requires counted { AreCountedTo graph.now checked.now made.now later.old at }
    ensures { OnOk result (AreCountedTo graph.now checked.now made.now later.new (at + 1)) }
{
    if checked[at] {
        return Ok(());
    }
    let deps = deps_of(graph, at);
    later.depends(at as u32, deps, count_unmade(deps, made))?;
    Ok(())
}

/// Notes what the files depend on that are checked later.
pub(crate) fn count_files(
    graph: &Graph,
    checked: &[bool],
    made: &[bool],
    later: &mut ReadyFiles,
) -> Result<(), NoMemory>
    requires few { length graph.now ≤ FILE_LIMIT }
    requires checked { length checked.now ≡ length graph.now }
    requires made { length made.now ≡ length graph.now }
    requires counted { AreCountedTo graph.now checked.now made.now later.old 0 }
    ensures { OnOk result
        (AreCountedTo graph.now checked.now made.now later.new (length graph.now)) }
{
    for at in 0..checked.len() {
        count_file(graph, checked, made, later, at)?;
    }
    Ok(())
}

/// Notes that a file is made.
pub(crate) fn note_made(
    made: &mut Vec<bool>,
    ready: &mut PositionSet,
    later: &mut ReadyFiles,
    at: u32,
)
    requires at { at < length made.old.items }
    requires few { length made.old.items ≤ FILE_LIMIT }
    requires as_many { file_count later.old ≡ length made.old.items }
    ensures made { made.new.items ≡ slice_set made.old.items at true }
    ensures ready { (k : ℕ) → has ready.new k ≡ (has ready.old k && not (at == k)) }
    ensures files { file_count later.new ≡ file_count later.old }
    ensures waits { wait_count later.new ≡ wait_count later.old }
    ensures later { (count : ℕ) (deps : ℕ → List ℕ) (waits : ℕ → Bool) →
        AreWaitingFiles later.old count deps waits (λ k. slice_index_or made.old.items k false) →
        AreWaitingFiles later.new count deps waits (λ k. slice_index_or made.new.items k false) }
{
    ready.remove(at);
    if made[at as usize] {
        return;
    }
    made[at as usize] = true;
    later.finish(at);
}
