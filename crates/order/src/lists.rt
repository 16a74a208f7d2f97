//! The lists of files that wait for others: who waits for a file, and how much of what it depends on isn't done.

ghost use Rattle.std.specs.Prelude.{◌≡◌, ℕ, List, [], ◌+◌, ◌-◌, ◌<◌, ◌≤◌, ◌==◌, false, if◌then◌else◌, length, All, slice_index_or, slice_set, IfOk, OnOk};
ghost use Rattle.base_collections.specs.Positions.{has};
ghost use Rattle.order.specs.Counts.{times, AreReady};

use base::{FILE_LIMIT, NoMemory, Positions};
use base_collections::PositionSet;
use std::alloc::Global;

/// An empty list for each of `count` files.
pub(crate) fn no_users(alloc: Global, count: usize) -> Result<Vec<Positions>, NoMemory>
    ensures count { IfOk result (λ users. length users.items ≡ count) }
    ensures none { IfOk result (λ users. (dep file : ℕ) →
        times file (slice_index_or users.items dep []) ≡ 0) }
{
    let mut users = Vec::new(alloc);
    for _file in 0..count {
        users.push(Positions::new(alloc))?;
    }
    Ok(users)
}

/// Notes that a file depends on another.
fn add_user(users: &mut Vec<Positions>, dep: u32, file: u32) -> Result<(), NoMemory>
    requires { dep < length users.old.items }
    ensures count { length users.new.items ≡ length users.old.items }
    ensures added { OnOk result ((other k : ℕ) → times k (slice_index_or users.new.items other []) ≡
        times k (slice_index_or users.old.items other []) +
        (if dep == other then (if file == k then 1 else 0) else 0)) }
{
    let list = &mut users[dep as usize];
    list.push(file)?;
    Ok(())
}

/// Notes what a file depends on.
pub(crate) fn add_users(users: &mut Vec<Positions>, deps: &[u32], file: u32) -> Result<(), NoMemory>
    requires { All (λ dep. dep < length users.old.items) deps.now }
    ensures count { length users.new.items ≡ length users.old.items }
    ensures added { OnOk result ((other k : ℕ) → times k (slice_index_or users.new.items other []) ≡
        times k (slice_index_or users.old.items other []) +
        (if file == k then times other deps.now else 0)) }
{
    for dep in deps {
        add_user(users, *dep, file)?;
    }
    Ok(())
}

/// The files that wait and whose dependencies are all done.
pub(crate) fn ready_files(waiting: &[bool], missing: &[usize]) -> PositionSet
    requires few { length waiting.now ≤ FILE_LIMIT }
    requires as_many { length missing.now ≡ length waiting.now }
    ensures { AreReady (has result) waiting.now missing.now }
{
    let mut ready = PositionSet::new();
    for at in 0..waiting.len() {
        if waiting[at] {
            if missing[at] == 0 {
                ready.insert(at as u32);
            }
        }
    }
    ready
}

/// Notes that a file no longer waits.
pub(crate) fn take_out(waiting: &mut Vec<bool>, ready: &mut PositionSet, file: u32)
    requires few { length waiting.old.items ≤ FILE_LIMIT }
    requires at { file < length waiting.old.items }
    ensures waiting { waiting.new.items ≡ slice_set waiting.old.items file false }
    ensures ready { (missing : List ℕ) → AreReady (has ready.old) waiting.old.items missing →
        AreReady (has ready.new) waiting.new.items missing }
{
    waiting[file as usize] = false;
    ready.remove(file);
}

/// Sets how many dependencies of a file aren't done.
pub(crate) fn set_missing(
    file: u32,
    count: usize,
    waiting: &[bool],
    missing: &mut Vec<usize>,
    ready: &mut PositionSet,
)
    requires few { length waiting.now ≤ FILE_LIMIT }
    requires at { file < length waiting.now }
    requires as_many { length missing.old.items ≡ length waiting.now }
    ensures missing { missing.new.items ≡ slice_set missing.old.items file count }
    ensures ready { AreReady (has ready.old) waiting.now missing.old.items →
        AreReady (has ready.new) waiting.now missing.new.items }
{
    missing[file as usize] = count;
    if waiting[file as usize] {
        if count == 0 {
            ready.insert(file);
        } else {
            ready.remove(file);
        }
    }
}

/// Notes that one dependency of a file is done.
fn lower_one(user: u32, waiting: &[bool], missing: &mut Vec<usize>, ready: &mut PositionSet)
    requires few { length waiting.now ≤ FILE_LIMIT }
    requires as_many { length missing.old.items ≡ length waiting.now }
    ensures count { length missing.new.items ≡ length missing.old.items }
    ensures lowered { (k : ℕ) → slice_index_or missing.new.items k 0 ≡
        slice_index_or missing.old.items k 0 - (if user == k then 1 else 0) }
    ensures ready { AreReady (has ready.old) waiting.now missing.old.items →
        AreReady (has ready.new) waiting.now missing.new.items }
{
    let at = user as usize;
    if at >= waiting.len() {
        return;
    }
    missing[at] = missing[at].saturating_sub(1);
    if waiting[at] {
        if missing[at] == 0 {
            ready.insert(user);
        }
    }
}

/// A file is done: less is missing for each of its users.
pub(crate) fn lower(
    users: &[u32],
    waiting: &[bool],
    missing: &mut Vec<usize>,
    ready: &mut PositionSet,
)
    requires few { length waiting.now ≤ FILE_LIMIT }
    requires as_many { length missing.old.items ≡ length waiting.now }
    ensures count { length missing.new.items ≡ length missing.old.items }
    ensures lowered { (k : ℕ) → slice_index_or missing.new.items k 0 ≡
        slice_index_or missing.old.items k 0 - times k users.now }
    ensures ready { AreReady (has ready.old) waiting.now missing.old.items →
        AreReady (has ready.new) waiting.now missing.new.items }
{
    for user in users {
        lower_one(*user, waiting, missing, ready);
    }
}
