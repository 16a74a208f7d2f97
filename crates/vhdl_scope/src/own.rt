//! The sets that units begin with: by their own library clauses.

ghost use Rattle.std.specs.Prelude.{◌≡◌, ℕ, ◌/◌, ◌<◌, ◌≤◌, ◌*◌, ◌∷◌, ◌++◌, List, [], Contains, IfOk, OnOk, length, map, replicate};
ghost use Rattle.std.specs.List.{All, AllZip};
ghost use Rattle.vhdl_outline.specs.Outlines.{file_scopes};
ghost use Rattle.vhdl_scope.specs.Names.{implicit, keys_of};
ghost use Rattle.vhdl_scope.specs.Graph.{AreNamed, HasPut, IsRowOf};

use crate::names::{Names, STD, find};
use crate::row::{Room, Row};
use crate::wants::WORK;
use base::{NoMemory, Text};
use std::alloc::Global;
use vhdl_outline::{FileOutline, UnitScope};

/// Puts the number of a name into a row.
fn put(names: &Names, name: &[u8], row: &mut Room)
    requires known { Contains (keys_of names.now) name.now }
    requires room { length (keys_of names.now) ≤ 64 * length row.old }
    ensures { HasPut (keys_of names.now) (name.now ∷ []) row.old row.new }
{
    if let Some(number) = find(names, name) {
        row.put(number);
    }
}

/// Puts the numbers of names into a row.
fn put_all(names: &Names, more: &[Text], row: &mut Room)
    requires known { AreNamed (keys_of names.now) more.now }
    requires room { length (keys_of names.now) ≤ 64 * length row.old }
    ensures { HasPut (keys_of names.now) more.now row.old row.new }
{
    for name in more {
        put(names, name.bytes(), row);
    }
}

/// The row of `work` and `std`.
fn implicit_row(alloc: Global, names: &Names, words: usize) -> Result<Row, NoMemory>
    requires implicit { AreNamed (keys_of names.now) implicit }
    requires room { length (keys_of names.now) ≤ 64 * words }
    ensures { IfOk result (λ row. IsRowOf (keys_of names.now) words row implicit) }
{
    let mut row = Room::new(alloc, words)?;
    put(names, WORK.as_slice(), &mut row);
    put(names, STD.as_slice(), &mut row);
    Ok(row.to_row(alloc)?)
}

/// The row of `work` and `std`, which the first row has, and of further names. What is in `room` is lost.
fn row_of(
    alloc: Global,
    names: &Names,
    first: &Row,
    more: &[Text],
    room: &mut Room,
) -> Result<Row, NoMemory>
    requires first { IsRowOf (keys_of names.now) (length room.old) first.now implicit }
    requires known { AreNamed (keys_of names.now) more.now }
    requires room { length (keys_of names.now) ≤ 64 * length room.old }
    ensures long { length room.new ≡ length room.old }
    ensures row { IfOk result (λ row.
        IsRowOf (keys_of names.now) (length room.old) row (implicit ++ more.now)) }
{
    if more.is_empty() {
        return Ok(first.copy(alloc)?);
    }
    room.load(first);
    put_all(names, more, room);
    Ok(room.to_row(alloc)?)
}

/// Adds the rows that units begin with to those before. What is in `room` is lost.
fn push_rows(
    alloc: Global,
    names: &Names,
    first: &Row,
    units: &[UnitScope],
    room: &mut Room,
    rows: &mut Vec<Row>,
) -> Result<(), NoMemory>
    requires first { IsRowOf (keys_of names.now) (length room.old) first.now implicit }
    requires known { All (λ unit. AreNamed (keys_of names.now) unit.names) units.now }
    requires room { length (keys_of names.now) ≤ 64 * length room.old }
    ensures long { length room.new ≡ length room.old }
    ensures rows { OnOk result ((before : List (List (List ℕ))) →
        AllZip (IsRowOf (keys_of names.now) (length room.old)) rows.old.items before →
        AllZip (IsRowOf (keys_of names.now) (length room.old)) rows.new.items
        (before ++ map (λ unit. implicit ++ unit.names) units.now)) }
{
    for unit in units {
        rows.push(row_of(alloc, names, first, unit.names.as_slice(), room)?)?;
    }
    Ok(())
}

/// The number of units of files and of groups, or `usize::MAX` if the number is larger. It only decides how much room is made
/// for rows: no contract depends on it.
fn room_for_rows(files: &[FileOutline], groups: usize) -> usize {
    let mut count = groups;
    for file in files {
        count = count.saturating_add(file.scopes.len() as usize);
    }
    count
}

/// The rows that the units of files begin with, and after them one for each group, which has `work` and `std`.
pub fn rows_of(
    alloc: Global,
    names: &Names,
    files: &[FileOutline],
    groups: usize,
    words: usize,
) -> Result<Vec<Row>, NoMemory>
    requires implicit { AreNamed (keys_of names.now) implicit }
    requires known { All (λ file. All (λ unit. AreNamed (keys_of names.now) unit.names) file.scopes)
        files.now }
    requires room { length (keys_of names.now) ≤ 64 * words }
    ensures { IfOk result (λ rows. AllZip (IsRowOf (keys_of names.now) words) rows.items
        (map (λ unit. implicit ++ unit.names) (file_scopes files.now)
        ++ replicate groups (implicit ++ []))) }
{
    let first = implicit_row(alloc, names, words)?;
    let mut room = Room::new(alloc, words)?;
    let mut rows = Vec::with_capacity(alloc, room_for_rows(files, groups))?;
    for file in files {
        push_rows(
            alloc,
            names,
            &first,
            file.scopes.as_slice(),
            &mut room,
            &mut rows,
        )?;
    }
    for _ in 0..groups {
        rows.push(row_of(alloc, names, &first, &[], &mut room)?)?;
    }
    Ok(rows)
}
