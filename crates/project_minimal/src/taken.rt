//! Files that are taken one after the other, each once.

ghost use Rattle.std.specs.Prelude.{◌≡◌, ◌<◌, ◌≤◌, ◌==◌, ◌&&◌, ℕ, true, false, nat_lt, length, OnOk};
ghost use Rattle.std.specs.List.{All};
ghost use Rattle.base_collections.specs.Positions.{has};
ghost use Rattle.project_minimal.specs.Suppliers.{has_file};
ghost use Rattle.project_minimal.specs.Taking.{AreTaken, Grows, Takes, is_taken};

use base::{FILE_LIMIT, NoMemory};
use base_collections::PositionSet;
use std::alloc::Global;

/// The files that were taken: as a set, and in the order in which they were. All before the position `low` are among them.
#[derive(Drop)]
pub struct Taken {
    pub set: PositionSet,
    pub list: Vec<u32>,
    pub low: u32,
}

/// None.
pub fn none_taken(alloc: Global) -> Taken
    ensures are { (count : ℕ) → AreTaken count result }
    ensures none { (at : ℕ) → is_taken result at ≡ false }
{
    let set = PositionSet::new();
    let list = Vec::new(alloc);
    Taken { set, list, low: 0 }
}

/// Whether a position is in a set.
pub fn is_in(set: &PositionSet, at: u32) -> bool
    ensures { result ≡ has set.now at }
{
    match set.next_from(at) {
        Some(next) => next == at,
        None => false,
    }
}

/// Takes one of `count` files, unless it is taken already.
pub fn take(count: u32, file: u32, taken: &mut Taken) -> Result<(), NoMemory>
    requires few { count ≤ FILE_LIMIT }
    requires within { file < count }
    requires before { AreTaken count taken.old }
    ensures grows { OnOk result (Grows count taken.old taken.new) }
    ensures takes { OnOk result (Takes (λ at. file == at) taken.old taken.new) }
{
    if is_in(&taken.set, file) {
        return Ok(());
    }
    taken.list.push(file)?;
    taken.set.insert(file);
    Ok(())
}

/// Takes files.
pub fn take_all(count: u32, files: &[u32], taken: &mut Taken) -> Result<(), NoMemory>
    requires few { count ≤ FILE_LIMIT }
    requires within { All (λ file. file < count) files.now }
    requires before { AreTaken count taken.old }
    ensures grows { OnOk result (Grows count taken.old taken.new) }
    ensures takes { OnOk result (Takes (has_file files.now) taken.old taken.new) }
{
    for file in files {
        take(count, *file, taken)?;
    }
    Ok(())
}

/// Notes that all files before a position were taken.
fn raise_low(count: u32, end: u32, taken: &mut Taken)
    requires before { AreTaken count taken.old }
    requires all { (at : ℕ) → at < end → is_taken taken.old at ≡ true }
    ensures grows { Grows count taken.old taken.new }
    ensures same { (at : ℕ) → is_taken taken.new at ≡ is_taken taken.old at }
{
    taken.low = end;
}

/// Takes all files before one.
pub fn take_earlier(count: u32, end: u32, taken: &mut Taken) -> Result<(), NoMemory>
    requires few { count ≤ FILE_LIMIT }
    requires within { end ≤ count }
    requires before { AreTaken count taken.old }
    ensures grows { OnOk result (Grows count taken.old taken.new) }
    ensures takes { OnOk result (Takes (λ at. nat_lt at end) taken.old taken.new) }
{
    let low = taken.low;
    if end <= low {
        return Ok(());
    }
    for file in low..end {
        take(count, file, taken)?;
    }
    raise_low(count, end, taken);
    Ok(())
}
