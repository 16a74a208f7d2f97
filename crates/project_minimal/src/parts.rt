//! Files of a graph that depend on each other alone, as files of a graph of their own.

ghost use Rattle.std.specs.Prelude.{◌≡◌, ◌<◌, ◌≤◌, [], length, map, get_or, slice_index, All, IfOk};
ghost use Rattle.std.specs.List.Sorted.{IsStrictlyIncreasing};
ghost use Rattle.std.proofs.Math.ListN.{set};
ghost use Rattle.base.specs.View.{part};
ghost use Rattle.project_views.specs.Numbers.{IsNumbered, with_numbers};
ghost use Rattle.project_views.specs.Parts.{IsPart};
ghost use Rattle.project_minimal.specs.Nothing.{no_entry};

use base::{Entry, FILE_LIMIT, FileName, Items, NoMemory, Positions, Text};
use std::alloc::Global;
use std::mem;

/// The new number of each kept position, at that position in a table of all files.
fn numbers_of(alloc: Global, count: usize, kept: &[u32]) -> Result<Vec<u32>, NoMemory>
    requires rising { IsStrictlyIncreasing kept.now }
    requires within { All (λ position. position < count) kept.now }
    requires few { count ≤ FILE_LIMIT }
    ensures count { IfOk result (λ table. length table.items ≡ count) }
    ensures numbers { IfOk result (λ table. IsNumbered table.items kept.now (length kept.now)) }
{
    let mut table = vec![in alloc; 0; count]?;
    for number in 0..kept.len() {
        table[kept[number] as usize] = number as u32;
    }
    Ok(table)
}

/// The new numbers of positions.
fn renumber(alloc: Global, table: &[u32], positions: &[u32]) -> Result<Positions, NoMemory>
    requires { All (λ position. position < length table.now) positions.now }
    ensures { IfOk result (λ numbers. numbers ≡ map (slice_index table.now) positions.now) }
{
    let mut numbers = Positions::new(alloc);
    for position in positions {
        numbers.push(table[*position as usize])?;
    }
    Ok(numbers)
}

/// A file whose dependencies get their new numbers.
fn with_numbers(alloc: Global, table: &[u32], entry: Entry) -> Result<Entry, NoMemory>
    requires { All (λ dep. dep < length table.now) entry.deps }
    ensures { IfOk result (λ moved. moved ≡ with_numbers table.now entry) }
{
    let Entry {
        name,
        command,
        text,
        deps,
    } = entry;
    Ok(Entry {
        name,
        command,
        text,
        deps: renumber(alloc, table, deps.as_slice())?,
    })
}

/// Takes the file of a position out of files, and leaves there one without a name, which takes no memory.
fn take_entry(alloc: Global, entries: &mut Vec<Entry>, at: usize) -> Entry
    requires { at < length entries.old.items }
    ensures entry { result ≡ get_or entries.old.items at no_entry }
    ensures left { entries.new.items ≡ set entries.old.items at no_entry }
{
    let nothing = Entry {
        name: FileName {
            library: Text::new(alloc),
            path: Text::new(alloc),
        },
        command: Items::new(alloc),
        text: Text::new(alloc),
        deps: Items::new(alloc),
    };
    mem::replace(&mut entries[at], nothing)
}

/// The files at kept positions, each with the new numbers of what it depends on. They are moved, not copied.
pub fn restrict(
    alloc: Global,
    entries: Vec<Entry>,
    kept: &Positions,
) -> Result<Vec<Entry>, NoMemory>
    requires few { length entries.items ≤ FILE_LIMIT }
    requires part { IsPart entries.items kept.now }
    ensures { IfOk result (λ some. some.items ≡ part entries.items kept.now) }
{
    let kept = kept.as_slice();
    let table = numbers_of(alloc, entries.len(), kept)?;
    let mut entries = entries;
    let mut some = Vec::with_capacity(alloc, kept.len())?;
    for number in 0..kept.len() {
        let entry = take_entry(alloc, &mut entries, kept[number] as usize);
        some.push(with_numbers(alloc, &table, entry)?)?;
    }
    Ok(some)
}
