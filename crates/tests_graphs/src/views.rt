//! Whether files that were read are a graph, and a view.

ghost use Rattle.std.specs.Prelude.{◌≡◌, ◌↔◌, ◌<◌, ◌≤◌, length, sum_by, IsTrue, IfOk};
ghost use Rattle.base.specs.Graphs.{IsGraph};
ghost use Rattle.base.specs.View.{IsView};
ghost use Rattle.store_form_2.specs.Validity.{StandsAt, StandBelow};

use crate::closed::is_closed;
use crate::names::are_distinct;
use crate::sizes::{fits_file, rise_below};
use base::{Entry, FILE_LIMIT, GRAPH_TEXT_LIMIT, NoMemory};
use std::alloc::Global;

/// Whether the texts of files have at most 67,108,864 bytes together.
fn are_small(entries: &[Entry]) -> bool
    ensures { IsTrue result ↔ (sum_by (λ entry. length entry.text) entries.now ≤ GRAPH_TEXT_LIMIT) }
{
    let mut left: usize = 67_108_864;
    for entry in entries {
        let size = entry.text.bytes().len();
        if size > left {
            return false;
        }
        left -= size;
    }
    true
}

/// Whether the file at a rank is there in a graph, where all files before it do.
fn stands_at(alloc: Global, entries: &[Entry], rank: usize) -> Result<bool, NoMemory>
    requires rank { rank < length entries.now }
    requires few { length entries.now ≤ FILE_LIMIT }
    requires before { StandBelow entries.now rank }
    ensures { IfOk result (λ stands. IsTrue stands ↔ StandsAt entries.now rank) }
{
    let entry = &entries[rank];
    if !fits_file(entry) {
        return Ok(false);
    }
    if !rise_below(rank as u32, entry.deps.as_slice()) {
        return Ok(false);
    }
    is_closed(alloc, entries, rank)
}

/// Whether each file is in a graph where it is.
fn all_stand(alloc: Global, entries: &[Entry]) -> Result<bool, NoMemory>
    requires { length entries.now ≤ FILE_LIMIT }
    ensures { IfOk result (λ all. IsTrue all ↔ StandBelow entries.now (length entries.now)) }
{
    for rank in 0..entries.len() {
        if !stands_at(alloc, entries, rank)? {
            return Ok(false);
        }
    }
    Ok(true)
}

/// Whether the last file depends on all others. Its dependencies rise and come before it, so their number tells.
fn is_whole(entries: &[Entry]) -> bool
    requires some { 0 < length entries.now }
    requires stand { StandBelow entries.now (length entries.now) }
    ensures { IsTrue result ↔ IsView entries.now }
{
    let last = entries.len() - 1;
    entries[last].deps.as_slice().len() == last
}

/// Whether files are a graph whose last file depends on all others.
pub fn is_view(alloc: Global, entries: &[Entry]) -> Result<bool, NoMemory>
    ensures { IfOk result (λ is. IsTrue is ↔ (IsGraph entries.now × IsView entries.now)) }
{
    if entries.is_empty() || entries.len() > FILE_LIMIT {
        return Ok(false);
    }
    if !are_small(entries) {
        return Ok(false);
    }
    if !are_distinct(alloc, entries)? {
        return Ok(false);
    }
    if !all_stand(alloc, entries)? {
        return Ok(false);
    }
    Ok(is_whole(entries))
}
