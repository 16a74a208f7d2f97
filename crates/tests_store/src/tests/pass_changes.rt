//! What is done to the store of passes on a disk in memory, and what is recalled afterwards.

ghost use Rattle.std.specs.Prelude.{◌≡◌, ◌<◌, ◌+◌, false, length, IfOk, OnOk};
ghost use Rattle.outside.specs.Disks.{DiskState};
ghost use Rattle.testbench_runs.specs.Runs.{FitsRun};
ghost use Rattle.passes.specs.Stored.{IsPassStoreInStep};

use crate::tests::changes::first_letter;
use base::{ARTEFACT_LIMIT, FileName, NoMemory, Text, TextList};
use base_bytes::is_command_within_limits;
use outside::{Disk, StoreFault};
use passes::PassStore;
use std::alloc::Global;
use testbench_runs::{SHOWN_LIMIT, TestRun};

/// Adds a file to the list of built files.
pub fn add(
    alloc: Global,
    store: &mut PassStore,
    library: &str,
    path: &str,
    artefact: &[u8],
) -> Result<(), NoMemory>
    requires few { length store.old.held.built < 3 }
    ensures count { OnOk result
        (length store.new.held.built ≡ length store.old.held.built + 1) }
    ensures payloads { store.new.held.payloads ≡ store.old.held.payloads }
    ensures journal { store.new.journal ≡ store.old.journal }
{
    let name = FileName {
        library: Text::from_slice(alloc, library.as_bytes())?,
        path: Text::from_slice(alloc, path.as_bytes())?,
    };
    if !name.is_within_limits() {
        return Err(NoMemory);
    }
    if artefact.len() > ARTEFACT_LIMIT {
        return Err(NoMemory);
    }
    store.add_file(alloc, &name, artefact)
}

/// Adds a pass of a run over the list of built files.
pub fn record<D: Disk>(
    alloc: Global,
    store: &mut PassStore,
    disk: &mut D,
    run: &TestRun,
    simulator: &TextList,
    output: &[u8],
) -> Result<(), StoreFault>
    requires run { FitsRun run.now }
    requires usable { store.old.journal.broken ≡ false }
    requires in_step { D.tells → IsPassStoreInStep store.old (D.moments disk.old).now }
    ensures usable { OnOk result (store.new.journal.broken ≡ false) }
    ensures in_step { D.tells →
        OnOk result (IsPassStoreInStep store.new (D.moments disk.new).now) }
{
    if !is_command_within_limits(simulator) {
        return Err(StoreFault::NoMemory);
    }
    if output.len() > SHOWN_LIMIT {
        return Err(StoreFault::NoMemory);
    }
    let next = store.prepare(alloc, run, simulator, output)?;
    store.commit(disk, next)?;
    Ok(())
}

/// The output of the last pass of a run, if that is over the list of built files: its one byte, a dot for no byte, and `?` for more; `-`
/// if none is recalled.
pub fn recalled_letter(store: &PassStore, run: &TestRun, simulator: &TextList) -> u8 {
    match store.recall(run, simulator) {
        Some(output) => first_letter(output),
        None => b'-',
    }
}

/// The words of a simulator of one word.
fn words(alloc: Global, word: &str) -> Result<TextList, NoMemory> {
    let mut words = TextList::new(alloc);
    words.push(Text::from_slice(alloc, word.as_bytes())?)?;
    Ok(words)
}

/// The run without cases whose texts are empty.
fn small_run(alloc: Global) -> TestRun
    ensures { FitsRun result }
{
    TestRun {
        library: Text::new(alloc),
        bench: Text::new(alloc),
        architecture: Text::new(alloc),
        cases: TextList::new(alloc),
        whole: true,
        same_sim: false,
        path: Text::new(alloc),
    }
}

/// Starts a list of the file `p` of `l` with an artefact, and of `q` with another one, unless that is empty.
fn start_list(
    alloc: Global,
    store: &mut PassStore,
    first: &[u8],
    second: &[u8],
) -> Result<(), NoMemory>
    ensures payloads { store.new.held.payloads ≡ store.old.held.payloads }
    ensures journal { store.new.journal ≡ store.old.journal }
{
    store.libraries();
    add(alloc, store, "l", "p", first)?;
    if second.is_empty() {
        return Ok(());
    }
    add(alloc, store, "l", "q", second)
}

/// The letter that is recalled of the small run with the word `s` over files with these artefacts.
pub fn letter_over(
    alloc: Global,
    store: &mut PassStore,
    first: &[u8],
    second: &[u8],
) -> Result<u8, NoMemory> {
    start_list(alloc, store, first, second)?;
    let run = small_run(alloc);
    Ok(recalled_letter(store, &run, &words(alloc, "s")?))
}

/// Opens the store of a disk, and gives that letter. It alone owns a store.
pub fn letter_on<D: Disk>(
    alloc: Global,
    disk: &mut D,
    first: &[u8],
    second: &[u8],
) -> Result<u8, StoreFault> {
    let mut store = PassStore::open(alloc, disk)?;
    Ok(letter_over(alloc, &mut store, first, second)?)
}

/// Opens the store of a disk empty, and gives that letter over a file with the artefact `a`.
fn letter_of_emptied<D: Disk>(alloc: Global, disk: &mut D) -> Result<u8, StoreFault> {
    let mut store = PassStore::emptied(alloc, disk)?;
    Ok(letter_over(alloc, &mut store, b"a", &[])?)
}

/// Records that the small run passed with the word `s`, and printed `o`, and then `q` where that is asked for.
fn keep<D: Disk>(
    alloc: Global,
    store: &mut PassStore,
    disk: &mut D,
    both: bool,
) -> Result<(), StoreFault>
    requires usable { store.old.journal.broken ≡ false }
    requires in_step { D.tells → IsPassStoreInStep store.old (D.moments disk.old).now }
{
    let run = small_run(alloc);
    let simulator = words(alloc, "s")?;
    record(alloc, store, disk, &run, &simulator, b"o")?;
    if !both {
        return Ok(());
    }
    record(alloc, store, disk, &run, &simulator, b"q")
}

/// The same over a file with the artefact `a`.
fn keep_listed<D: Disk>(
    alloc: Global,
    store: &mut PassStore,
    disk: &mut D,
    both: bool,
) -> Result<(), StoreFault>
    requires usable { store.old.journal.broken ≡ false }
    requires in_step { D.tells → IsPassStoreInStep store.old (D.moments disk.old).now }
{
    start_list(alloc, store, b"a", &[])?;
    keep(alloc, store, disk, both)
}

/// The same in the store of a disk.
fn keep_on<D: Disk>(alloc: Global, disk: &mut D, both: bool) -> Result<(), StoreFault> {
    let mut store = PassStore::open(alloc, disk)?;
    keep_listed(alloc, &mut store, disk, both)
}

/// Whether the store of a disk on which a commit fails says that it is broken, and not before.
pub fn breaks<D: Disk>(alloc: Global, disk: &mut D) -> Result<bool, StoreFault> {
    let mut store = PassStore::open(alloc, disk)?;
    if store.is_broken() {
        return Ok(false);
    }
    let answer = keep_listed(alloc, &mut store, disk, false);
    Ok(answer.is_err() && store.is_broken())
}

/// A change to the store of a disk. A disk that is full of dead bytes is compacted when it is opened.
#[derive(Clone, Copy)]
pub enum PassChange {
    Opens,
    Commits,
    Compacts,
    Empties,
}

/// Makes a change.
pub fn make<D: Disk>(alloc: Global, disk: &mut D, change: PassChange) -> Result<(), StoreFault> {
    match change {
        PassChange::Commits => keep_on(alloc, disk, true),
        PassChange::Empties => {
            keep_on(alloc, disk, false)?;
            letter_of_emptied(alloc, disk)?;
            Ok(())
        }
        _ => {
            letter_on(alloc, disk, b"a", &[])?;
            Ok(())
        }
    }
}
