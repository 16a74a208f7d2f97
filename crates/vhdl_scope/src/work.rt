//! The list of work: indices whose rows are to be looked at again.

ghost use Rattle.std.specs.Prelude.{◌≡◌, ◌<◌, ◌∷◌, [], true, length, IfOk, OnOk};
ghost use Rattle.std.specs.List.{All};
ghost use Rattle.vhdl_scope.specs.Links.{AreBelow};
ghost use Rattle.vhdl_scope.specs.Work.{AreReaders, HasListed, HaveReader, IsWork, KnowReaders};

use crate::links::{Link, LinkList};
use base::{Items, NoMemory};
use std::alloc::Global;

/// Puts an index on the list of work, unless it is on the list.
pub fn list_one(work: &mut Vec<usize>, flags: &mut [bool], at: usize) -> Result<(), NoMemory>
    requires within { at < length flags.old }
    requires work { IsWork work.old.items flags.old }
    ensures { OnOk result (HasListed (at ∷ []) work.old.items flags.old work.new.items flags.new) }
{
    if !flags[at] {
        work.push(at)?;
        flags[at] = true;
    }
    Ok(())
}

/// Puts each of some indices on the list of work, unless it is on the list.
pub fn list_all(
    work: &mut Vec<usize>,
    flags: &mut [bool],
    row_indices: &[usize],
) -> Result<(), NoMemory>
    requires within { All (λ at. at < length flags.old) row_indices.now }
    requires work { IsWork work.old.items flags.old }
    ensures { OnOk result (HasListed row_indices.now work.old.items flags.old work.new.items flags.new) }
{
    for at in row_indices {
        list_one(work, flags, *at)?;
    }
    Ok(())
}

/// Adds an index to the readers of the source of each of its links.
fn add_reader(readers: &mut Vec<Items<usize>>, links: &[Link], at: usize) -> Result<(), NoMemory>
    requires sources { All (λ link. link.source < length readers.old.items) links.now }
    requires row_indices { AreReaders (length readers.old.items) readers.old.items }
    requires within { at < length readers.old.items }
    ensures { OnOk result (HaveReader at links.now readers.old.items readers.new.items) }
{
    for link in links {
        readers[link.source].push(at)?;
    }
    Ok(())
}

/// Lists of no reader, one for each index.
fn no_readers(alloc: Global, row_indices: usize) -> Result<Vec<Items<usize>>, NoMemory>
    ensures each { IfOk result (λ readers. length readers.items ≡ row_indices) }
    ensures row_indices { IfOk result (λ readers. AreReaders row_indices readers.items) }
{
    let mut readers: Vec<Items<usize>> = Vec::new(alloc);
    for _ in 0..row_indices {
        readers.push(Items::new(alloc))?;
    }
    Ok(readers)
}

/// The indices that read each index: those with a link from it.
pub fn readers_of(alloc: Global, links: &[LinkList]) -> Result<Vec<Items<usize>>, NoMemory>
    requires { AreBelow (length links.now) links.now }
    ensures each { IfOk result (λ readers. length readers.items ≡ length links.now) }
    ensures row_indices { IfOk result (λ readers. AreReaders (length links.now) readers.items) }
    ensures known { IfOk result (λ readers. KnowReaders links.now readers.items) }
{
    let mut readers = no_readers(alloc, links.len())?;
    for at in 0..links.len() {
        add_reader(&mut readers, links[at].as_slice(), at)?;
    }
    Ok(readers)
}
