//! Passes of a small project: how long the sides are that its runs leave, as worked out by hand, and which runs are known after them.

ghost use Rattle.std.specs.Prelude.{◌≡◌, [], false, IfOk, OnOk};
ghost use Rattle.testbench_runs.specs.Runs.{FitsRun};
ghost use Rattle.passes.specs.Stored.{IsPassStoreInStep};

use crate::tests::pass_changes::{add, recalled_letter, record};
use crate::trials::empty_disk;
use base::{NoMemory, Text, TextList};
use memory_outside::MemDisk;
use outside::{Disk, Side, StoreFault};
use passes::PassStore;
use std::alloc::Global;
use std::test::Fail;
use testbench_runs::TestRun;

/// The artefacts of a package, of the entity `counter`, and of this with a script line.
static PACKAGE: &str = "unit package counter_pkg\n";

static COUNTER: &str = "unit entity counter\nunit architecture rtl of counter\n";

static NOTED: &str = "unit entity counter\nunit architecture rtl of counter\nscript note 1\n";

/// The artefacts of the bench, and of this with a script line that lets its case `reset` fail.
static BENCH: &str = "unit entity tb_counter\nunit architecture sim of tb_counter\n";

static FAILING: &str =
    "unit entity tb_counter\nunit architecture sim of tb_counter\nscript fail tb_lib.tb_counter.reset\n";

/// Starts the list of the files of the project: with the line in `counter` for 2, with that in the bench for 3, else with neither.
fn start_project(alloc: Global, store: &mut PassStore, edit: u8) -> Result<(), NoMemory>
    ensures payloads { store.new.held.payloads ≡ store.old.held.payloads }
    ensures journal { store.new.journal ≡ store.old.journal }
{
    let counter = if edit == b'2' { NOTED } else { COUNTER };
    let bench = if edit == b'3' { FAILING } else { BENCH };
    store.libraries();
    add(
        alloc,
        store,
        "lib",
        "src/counter_pkg.vhd",
        PACKAGE.as_bytes(),
    )?;
    add(alloc, store, "lib", "src/counter.vhd", counter.as_bytes())?;
    add(
        alloc,
        store,
        "tb_lib",
        "tb/tb_counter.vhd",
        bench.as_bytes(),
    )
}

/// The run of a case of the bench: of `reset` for `r`, else of `count & wrap`.
fn run_of(alloc: Global, letter: u8) -> Result<TestRun, NoMemory>
    ensures { IfOk result FitsRun }
{
    let case = if letter == b'r' {
        "reset"
    } else {
        "count & wrap"
    };
    let mut cases = TextList::new(alloc);
    cases.push(Text::from_slice(alloc, case.as_bytes())?)?;
    Ok(TestRun {
        library: Text::from_slice(alloc, b"tb_lib")?,
        bench: Text::from_slice(alloc, b"tb_counter")?,
        architecture: Text::from_slice(alloc, b"sim")?,
        cases,
        whole: false,
        same_sim: false,
        path: Text::from_slice(alloc, b"tb/tb_counter.vhd")?,
    })
}

/// The words of the built-in simulator.
fn simulator(alloc: Global) -> Result<TextList, NoMemory> {
    let mut words = TextList::new(alloc);
    words.push(Text::from_slice(alloc, b"@self")?)?;
    words.push(Text::from_slice(alloc, b"child-bench")?)?;
    Ok(words)
}

/// Records that a case passed over an edit of the project, and printed nothing.
fn keep<D: Disk>(
    alloc: Global,
    store: &mut PassStore,
    disk: &mut D,
    edit: u8,
    case: u8,
) -> Result<(), StoreFault>
    requires usable { store.old.journal.broken ≡ false }
    requires in_step { D.tells → IsPassStoreInStep store.old (D.moments disk.old).now }
{
    start_project(alloc, store, edit)?;
    let run = run_of(alloc, case)?;
    let words = simulator(alloc)?;
    record(alloc, store, disk, &run, &words, &[])
}

/// The same in the store of a disk.
fn keep_on<D: Disk>(alloc: Global, disk: &mut D, edit: u8, case: u8) -> Result<(), StoreFault> {
    let mut store = PassStore::open(alloc, disk)?;
    keep(alloc, &mut store, disk, edit, case)
}

/// Records passes: a digit changes the edit, and a letter is of a case.
fn keep_all(alloc: Global, disk: &mut MemDisk, history: &str) -> Result<(), StoreFault> {
    let mut edit = b'1';
    for byte in history.as_bytes() {
        if *byte < b'a' {
            edit = *byte;
        } else {
            keep_on(alloc, disk, edit, *byte)?;
        }
    }
    Ok(())
}

/// What is recalled of both cases over an edit of the project, as letters.
fn letters_over(alloc: Global, store: &mut PassStore, edit: u8) -> Result<[u8; 2], NoMemory> {
    start_project(alloc, store, edit)?;
    let reset = run_of(alloc, b'r')?;
    let count = run_of(alloc, b'c')?;
    let words = simulator(alloc)?;
    Ok([
        recalled_letter(store, &reset, &words),
        recalled_letter(store, &count, &words),
    ])
}

/// The same of the store of a disk.
fn letters_on<D: Disk>(alloc: Global, disk: &mut D, edit: u8) -> Result<[u8; 2], StoreFault> {
    let mut store = PassStore::open(alloc, disk)?;
    Ok(letters_over(alloc, &mut store, edit)?)
}

/// One row per line: a history, the length of side A after it, an edit, and two letters. They are what is then recalled over this edit,
/// of `reset` and of `count & wrap`: a dot for the empty output, and `-` for none.
static ROWS: &str = "1r|367|1|.-
1rc|487|1|..
1rc|487|2|--
1rc2rc|893|2|..
1rc2rc|893|1|--
1rc2rc1rc|1126|1|..
1rc3c|808|3|-.
1rc3c|808|1|.-
1rc3c1c|928|1|..";

/// Whether a number is the one of a text.
fn is_number(number: usize, text: &str) -> bool {
    let mut value: usize = 0;
    for byte in text.as_bytes() {
        value = value
            .wrapping_mul(10)
            .wrapping_add(byte.wrapping_sub(b'0') as usize);
    }
    value == number
}

/// A part of a row.
fn part(row: &str, at: usize) -> &str {
    match row.split('|').skip(at).next() {
        Some(part) => part,
        None => "",
    }
}

/// Whether the disk after a history is as its row says.
fn leaves(alloc: Global, disk: &mut MemDisk, row: &str) -> Result<bool, StoreFault> {
    keep_all(alloc, disk, part(row, 0))?;
    if !is_number(disk.reads(Side::A).len(), part(row, 1)) {
        return Ok(false);
    }
    let [edit] = part(row, 2).as_bytes() else {
        return Ok(false);
    };
    let letters = letters_on(alloc, disk, *edit)?;
    Ok(letters.as_slice() == part(row, 3).as_bytes())
}

fn is_right(alloc: Global, row: &str) -> Result<bool, StoreFault> {
    let mut disk = empty_disk(alloc, &[])?;
    leaves(alloc, &mut disk, row)
}

#[test]
fn passes_of_a_project_take_the_bytes_that_were_counted_by_hand(
    rt: HostRuntime,
) -> Result<(), Fail> {
    for row in ROWS.lines() {
        assert!(rt; is_right(rt.alloc(), row)?, "{row}");
    }
    Ok(())
}
