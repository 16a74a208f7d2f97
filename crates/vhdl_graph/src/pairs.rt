//! The dependencies that a project names itself.

ghost use Rattle.std.specs.Prelude.{◌≡◌, ℕ, ◌<◌, ◌≤◌, ◌==◌, ◌||◌, ◌&&◌, false, IfOk, length};
ghost use Rattle.std.specs.List.{list_any};
ghost use Rattle.base_collections.specs.Positions.{has};
ghost use Rattle.vhdl_graph.specs.Rows.{has_pair, is_in_row};

use base::{FILE_LIMIT, NoMemory, Pair, Project};
use base_collections::PositionSet;
use std::alloc::Global;

/// An empty row for each of `files` files.
fn no_rows(alloc: Global, files: usize) -> Result<Vec<PositionSet>, NoMemory>
    ensures each { IfOk result (λ rows. length rows.items ≡ files) }
    ensures none { IfOk result (λ rows. (user at : ℕ) → is_in_row rows.items user at ≡ false) }
{
    let mut rows = Vec::new(alloc);
    for _file in 0..files {
        rows.push(PositionSet::new())?;
    }
    Ok(rows)
}

/// Puts a pair in.
fn add_pair(rows: &mut Vec<PositionSet>, pair: &Pair)
    ensures each { length rows.new.items ≡ length rows.old.items }
    ensures rows { (user at : ℕ) → user < length rows.old.items → at < FILE_LIMIT →
        is_in_row rows.new.items user at
        ≡ (is_in_row rows.old.items user at || (pair.now.user == user && pair.now.used == at)) }
{
    if pair.user < rows.len() as u64 {
        if pair.used < FILE_LIMIT as u64 {
            rows[pair.user as usize].insert(pair.used as u32);
        }
    }
}

/// Puts the row of a file in, if there is one.
pub fn add_row(row: &mut PositionSet, rows: &[PositionSet], file: usize)
    ensures { (at : ℕ) → has row.new at ≡ (has row.old at || is_in_row rows.now file at) }
{
    if let Some(more) = rows.get(file) {
        row.add_all(more);
    }
}

/// For each file of a project, the files on which the project lists a dependency of it. Where it lists none there are no rows:
/// those of 4,096 files take 2 MB.
pub fn rows_of_pairs(alloc: Global, project: &Project) -> Result<Vec<PositionSet>, NoMemory>
    ensures { IfOk result (λ rows. (user at : ℕ) → user < length project.now.files →
        at < FILE_LIMIT → is_in_row rows.items user at ≡ has_pair project.now.depends user at) }
{
    if project.depends.is_empty() {
        return Ok(Vec::new(alloc));
    }
    let mut rows = no_rows(alloc, project.files.len() as usize)?;
    for pair in project.depends.as_slice() {
        add_pair(&mut rows, pair);
    }
    Ok(rows)
}
