//! Changes over a disk in memory: what they leave, what a stop inside of them leaves, and calls that fail. A table has two lines of
//! letters: one for images whose free bytes are 1, and one for all other images. A line has a letter for a stop inside of each call,
//! and the last letter for the end. A call that fails leaves what a stop inside of it can.

use base::{Items, NoMemory, Numbers};
use memory_outside::MemDisk;
use outside::StoreFault;
use std::alloc::Global;

/// Longer than any side.
pub const LONG: u64 = (1 << 63) - 1;

/// An empty disk of which these calls fail.
pub fn empty_disk(alloc: Global, failing: &[u64]) -> Result<MemDisk, NoMemory> {
    let failing: Numbers = Items::from_vec(Vec::from_slice(alloc, failing)?);
    Ok(MemDisk::new(alloc, failing))
}

/// A change of a disk, and what disks hold before and after it.
pub trait Trial {
    /// A disk to be changed, of which these calls fail.
    fn disk(&self, alloc: Global, failing: &[u64]) -> Result<MemDisk, StoreFault> {
        Ok(empty_disk(alloc, failing)?)
    }

    /// Changes a disk, and tells whether that leaves what it is to leave.
    fn goes(&self, alloc: Global, disk: &mut MemDisk) -> Result<bool, StoreFault>;

    /// Whether a disk holds what a letter stands for.
    fn holds(&self, alloc: Global, disk: &mut MemDisk, letter: u8) -> Result<bool, StoreFault>;
}

/// Whether an image of a moment holds what a letter stands for.
fn leaves_image<T: Trial>(
    alloc: Global,
    trial: &T,
    disk: &MemDisk,
    moment: u64,
    length: u64,
    fill: u8,
    letter: u8,
) -> Result<bool, StoreFault> {
    let mut image = disk.crash(alloc, moment, length, fill)?;
    trial.holds(alloc, &mut image, letter)
}

/// Whether each image of a moment holds what a letter stands for: a first one where its free bytes are 1, and a second one
/// where they are others.
fn leaves<T: Trial>(
    alloc: Global,
    trial: &T,
    disk: &MemDisk,
    moment: u64,
    ones: u8,
    others: u8,
) -> Result<bool, StoreFault> {
    for fill in [1, 0, 255] {
        let letter = if fill == 1 { ones } else { others };
        if !leaves_image(alloc, trial, disk, moment, 0, fill, letter)?
            || !leaves_image(alloc, trial, disk, moment, LONG, fill, letter)?
        {
            return Ok(false);
        }
    }
    Ok(true)
}

/// Whether a change is answered by a fault of the disk.
pub fn is_refused<T: Trial>(alloc: Global, trial: &T, disk: &mut MemDisk) -> bool {
    let answer = trial.goes(alloc, disk);
    matches!(answer, Err(StoreFault::DiskFailed))
}

/// Whether a call that fails is answered, and leaves what a stop inside of it can.
fn fails<T: Trial>(
    alloc: Global,
    trial: &T,
    call: u64,
    ones: u8,
    others: u8,
) -> Result<bool, StoreFault> {
    let mut disk = trial.disk(alloc, &[call])?;
    let is_fault = is_refused(alloc, trial, &mut disk);
    Ok(is_fault && leaves(alloc, trial, &disk, call.saturating_add(1), ones, others)?)
}

/// Whether a disk leaves the letters of a moment; of no disk, whether a change whose call of that number fails does.
fn passes<T: Trial>(
    alloc: Global,
    trial: &T,
    disk: Option<&MemDisk>,
    number: u64,
    ones: u8,
    others: u8,
) -> Result<bool, StoreFault> {
    match disk {
        Some(disk) => leaves(alloc, trial, disk, number, ones, others),
        None => fails(alloc, trial, number, ones, others),
    }
}

/// The same of each number from the first one on, with a letter for each in either line; no call has the last one.
fn passes_each<T: Trial>(
    alloc: Global,
    trial: &T,
    disk: Option<&MemDisk>,
    first: u64,
    ones: &[u8],
    others: &[u8],
) -> Result<bool, StoreFault> {
    if ones.len() != others.len() {
        return Ok(false);
    }
    let count = if disk.is_some() {
        ones.len()
    } else {
        ones.len().saturating_sub(1)
    };
    for i in 0..count {
        let number = first.saturating_add(i as u64);
        if !passes(alloc, trial, disk, number, ones[i], others[i])? {
            return Ok(false);
        }
    }
    Ok(true)
}

/// The same of a table.
fn passes_all<T: Trial>(
    alloc: Global,
    trial: &T,
    disk: Option<&MemDisk>,
    first: u64,
    table: &str,
) -> Result<bool, StoreFault> {
    match table.split_once('\n') {
        Some((ones, others)) => passes_each(
            alloc,
            trial,
            disk,
            first,
            ones.as_bytes(),
            others.as_bytes(),
        ),
        None => Ok(false),
    }
}

/// Whether a stop at each moment of a disk leaves what a table says, from a moment on.
pub fn leaves_all<T: Trial>(
    alloc: Global,
    trial: &T,
    disk: &MemDisk,
    first: u64,
    table: &str,
) -> Result<bool, StoreFault> {
    passes_all(alloc, trial, Some(disk), first, table)
}

/// Whether a change leaves what it is to leave, and a stop inside of it what a table says, from a moment on.
pub fn goes<T: Trial>(
    alloc: Global,
    trial: &T,
    first: u64,
    table: &str,
) -> Result<bool, StoreFault> {
    let mut disk = trial.disk(alloc, &[])?;
    Ok(trial.goes(alloc, &mut disk)? && leaves_all(alloc, trial, &disk, first, table)?)
}

/// Whether each call of a table, from a call on, is answered where it fails, and leaves what the table says.
pub fn fails_all<T: Trial>(
    alloc: Global,
    trial: &T,
    first: u64,
    table: &str,
) -> Result<bool, StoreFault> {
    passes_all(alloc, trial, None, first, table)
}
