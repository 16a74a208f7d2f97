//! Opens a store of passes whose side is given, lists files, and asks which runs are known.

ghost use Rattle.std.specs.Prelude.{◌≡◌, ◌<◌, ◌+◌, length, OnOk};
ghost use Rattle.base.specs.declared.limits.TheConstants.{FILE_LIMIT};

use base::{ARTEFACT_LIMIT, FILE_LIMIT, FileName, Items, NoMemory, Numbers, Text, TextList};
use memory_outside::MemDisk;
use outside::{Disk, Side, StoreFault, write_durably};
use passes::PassStore;
use std::alloc::Global;
use testbench_runs::{TestRun, TestRunList};

/// How many bytes the name of a file or of a case has here.
const NAME: usize = 8;

/// How many bytes an artefact has here.
const ARTEFACT: usize = 8_192;

/// The result for a store: whether all could be done, and how many runs are known.
#[derive(Clone, Copy)]
#[repr(C)]
pub struct Known {
    pub whole: bool,
    pub runs: u64,
}

/// A disk in memory whose side A has these bytes.
pub fn disk_of(alloc: Global, side: &[u8]) -> Result<MemDisk, StoreFault> {
    let mut disk = MemDisk::new(alloc, Numbers::new(alloc));
    write_durably(&mut disk, Side::A, 0, side)?;
    Ok(disk)
}

/// Adds a file of library `l` to the list of built files.
fn add(alloc: Global, store: &mut PassStore, path: &[u8], artefact: &[u8]) -> Result<(), NoMemory>
    requires few { length store.old.held.built < FILE_LIMIT }
    ensures count { OnOk result
        (length store.new.held.built ≡ length store.old.held.built + 1) }
{
    let name = FileName {
        library: Text::from_slice(alloc, b"l")?,
        path: Text::from_slice(alloc, path)?,
    };
    if !name.is_within_limits() || artefact.len() > ARTEFACT_LIMIT {
        return Err(NoMemory);
    }
    store.add_file(alloc, &name, artefact)
}

/// Starts the list of these files: for each its path and its artefact.
fn start_list(alloc: Global, store: &mut PassStore, files: &[u8]) -> Result<(), NoMemory> {
    store.libraries();
    let mut rest = files;
    for _ in 0..FILE_LIMIT {
        if rest.len() < NAME + ARTEFACT {
            return Ok(());
        }
        let (path, after) = rest.split_at(NAME);
        let (artefact, others) = after.split_at(ARTEFACT);
        add(alloc, store, path, artefact)?;
        rest = others;
    }
    Ok(())
}

/// The run of a case of the bench `tb` of `l`.
fn run_of(alloc: Global, case: &[u8]) -> Result<TestRun, NoMemory> {
    let mut cases = TextList::new(alloc);
    cases.push(Text::from_slice(alloc, case)?)?;
    Ok(TestRun {
        library: Text::from_slice(alloc, b"l")?,
        bench: Text::from_slice(alloc, b"tb")?,
        architecture: Text::from_slice(alloc, b"sim")?,
        cases,
        whole: false,
        same_sim: false,
        path: Text::from_slice(alloc, b"tb.vhd")?,
    })
}

/// The runs of cases of these names.
fn runs_of(alloc: Global, names: &[u8]) -> Result<TestRunList, NoMemory> {
    let mut runs = Items::new(alloc);
    let mut rest = names;
    for _ in 0..names.len() / NAME {
        if rest.len() < NAME {
            return Ok(runs);
        }
        let (case, others) = rest.split_at(NAME);
        runs.push(run_of(alloc, case)?)?;
        rest = others;
    }
    Ok(runs)
}

/// How many runs are known, modulo 2^64.
fn count_known(store: &PassStore, runs: &[TestRun], simulator: &TextList) -> u64 {
    let mut count = 0_u64;
    for run in runs {
        if store.recall(run, simulator).is_some() {
            count = count.wrapping_add(1);
        }
    }
    count
}

/// The same, asked a number of times.
fn count_often(
    alloc: Global,
    store: &PassStore,
    names: &[u8],
    times: u64,
) -> Result<u64, NoMemory> {
    let runs = runs_of(alloc, names)?;
    let mut simulator = TextList::new(alloc);
    simulator.push(Text::from_slice(alloc, b"ghdl")?)?;
    let mut count = 0;
    for _ in 0..times {
        count = count_known(store, runs.as_slice(), &simulator);
    }
    Ok(count)
}

/// How many runs are known over a list of these files.
fn known_over(
    alloc: Global,
    store: &mut PassStore,
    files: &[u8],
    names: &[u8],
    times: u64,
) -> Result<u64, NoMemory> {
    start_list(alloc, store, files)?;
    count_often(alloc, store, names, times)
}

/// How many runs are known on a disk. It alone owns a store.
fn known_on<D: Disk>(
    alloc: Global,
    disk: &mut D,
    files: &[u8],
    names: &[u8],
    times: u64,
) -> Result<u64, StoreFault> {
    let mut store = PassStore::open(alloc, disk)?;
    Ok(known_over(alloc, &mut store, files, names, times)?)
}

/// The same of a disk whose side A has these bytes.
pub fn known_of(
    alloc: Global,
    side: &[u8],
    files: &[u8],
    names: &[u8],
    times: u64,
) -> Result<u64, StoreFault> {
    let mut disk = disk_of(alloc, side)?;
    known_on(alloc, &mut disk, files, names, times)
}
