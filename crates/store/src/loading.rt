//! The visitor that takes up the payloads of a store while its journal is read.

ghost use Rattle.std.specs.Prelude.{◌≡◌, ◌<◌, ◌^◌, ◌++◌, ◌∷◌, [], length, map, IfOk, OnOk};

use crate::LoadedStore;
use base::{Entry, NoMemory};
use base_collections::NumberSet;
use std::alloc::Global;
use std::marker::Model;
use store_journal::Visitor;
use store_table::{HeldPayloads, LocatedTable, number_names, take_payload};

/// The payloads that were taken, over the files of a graph, whose texts are borrowed, and what they stand for. After `NoMemory`
/// nothing more is taken. Contracts see the payloads, and the texts of the files.
#[derive(Drop)]
pub struct RequestVisitor<'g> {
    unnamed: &'g [Entry],
    held: HeldPayloads<'g>,
    table: LocatedTable,
    set: NumberSet,
    is_whole: bool,
}

impl<'g> Model for RequestVisitor<'g> {
    ghost use Rattle.std.specs.Prelude.{◌≡◌, true};
    ghost use Rattle.store_table.specs.Located.{IsHeld};
    ghost use Rattle.store.specs.Held.{TakenState};

    ghost Value = { TakenState };

    ghost view = { λ a. record { taken = a.held.payloads; borrowed = a.held.borrowed } };

    ghost invariant = { λ a. a.is_whole ≡ true → IsHeld a.held.segments a.held.payloads a.table };
}

impl<'g> RequestVisitor<'g> {
    /// Nothing yet, over the files of a graph, which takes no memory.
    pub fn over(alloc: Global, files: &'g [Entry]) -> RequestVisitor<'g>
        ensures taken { result.taken ≡ [] }
        ensures borrowed { result.borrowed ≡ map (λ file. file.text) files.now }
    {
        RequestVisitor {
            unnamed: files,
            held: HeldPayloads::over(alloc, files),
            table: LocatedTable::new(alloc),
            set: NumberSet::new(alloc),
            is_whole: true,
        }
    }

    /// What the payloads stand for.
    pub fn into_loaded(self) -> Result<LoadedStore<'g>, NoMemory>
        ensures payloads { IfOk result (λ loaded. loaded.payloads ≡ self.entry.taken) }
        ensures borrowed { IfOk result (λ loaded. loaded.borrowed ≡ self.entry.borrowed) }
    {
        let RequestVisitor {
            unnamed: _files,
            held,
            table,
            set: _set,
            is_whole,
        } = self;
        if !is_whole {
            return Err(NoMemory);
        }
        Ok(LoadedStore::of_parts(held, table))
    }
}

impl<'g> Visitor for RequestVisitor<'g> {
    ghost taken = { λ visitor. visitor.taken };

    ghost borrows = { λ visitor. visitor.borrowed };

    fn take(&mut self, alloc: Global, payload: &[u8]) -> Result<(), NoMemory> {
        if !self.is_whole {
            return Err(NoMemory);
        }
        self.is_whole = false;
        // The names of files are numbered first, so that the number of a record's name is that of its file.
        number_names(alloc, &mut self.table, self.unnamed)?;
        self.unnamed = &[];
        take_payload(
            alloc,
            &mut self.table,
            &mut self.set,
            &mut self.held,
            payload,
        )?;
        self.is_whole = true;
        Ok(())
    }
}
