//! A tree of files in memory.
ghost use Rattle.std.specs.Prelude.{◌≡◌, ◌⊎◌, [], ◌∷◌, ◌++◌, IfOk, OnOk};
ghost use Rattle.outside.specs.Counts.{TreeCounts};
ghost use Rattle.outside.specs.Trees.{IsListing, names_end, read_end, FitsReadLimit, Asks};
ghost use Rattle.memory_outside.specs.Failing.{no_calls, MakesCall, TreeFails};
ghost use Rattle.memory_outside.specs.Trees.{file_at, listed_of, HavePaths};
ghost use Rattle.memory_outside.specs.TreeLaws.{lists_of_files};

use crate::failing::Calls;
use crate::files::read_file;
use crate::listing::listing;
use base::{NamedTextList, NoMemory, Numbers, Text, TextList};
use outside::{NamesEnd, ReadEnd, Tree, TreeFault};
use std::alloc::Global;
use std::marker::Model;

/// A tree of files in memory.
#[derive(Drop)]
pub struct MemTree {
    files: NamedTextList,
    asked: TextList,
    calls: Calls,
}

impl Model for MemTree {
    ghost use Rattle.memory_outside.specs.Trees.{HeldTree, HavePaths};

    ghost Value = { HeldTree };

    ghost view = { λ a. record { files = a.files; asked = a.asked; calls = a.calls } };

    ghost invariant = { λ a. HavePaths a.files };
}

impl MemTree {
    /// A tree of these files, which takes no memory. Of two files of one path the first counts. The calls of these
    /// numbers, counted from 0, are to fail.
    pub fn new(alloc: Global, files: NamedTextList, failing: Numbers) -> MemTree
        requires { HavePaths files }
        ensures { result ≡ record { files = files; asked = []; calls = no_calls failing } }
    {
        MemTree {
            files,
            asked: TextList::new(alloc),
            calls: Calls::new(failing),
        }
    }

    /// Adds a path at the end of the list of requested paths.
    fn note(&mut self, alloc: Global, path: &Text) -> Result<(), NoMemory>
        ensures files { self.new.files ≡ self.old.files }
        ensures asked { OnOk result (self.new.asked ≡ self.old.asked ++ path.now ∷ []) }
        ensures either { (self.new.asked ≡ self.old.asked)
            ⊎ (self.new.asked ≡ self.old.asked ++ path.now ∷ []) }
        ensures calls { self.new.calls ≡ self.old.calls }
    {
        self.asked.push(path.copy(alloc)?)
    }
}

impl Tree for MemTree {
    ghost use Rattle.std.specs.Prelude.{List};
    ghost use Rattle.base.specs.declared.file.NamedText.{NamedText};
    ghost use Rattle.memory_outside.specs.Trees.{hold_same};

    ghost tells = { Unit {0} };

    ghost Kept = { List NamedText };

    ghost kept = { λ t. t.files };

    ghost holds = { λ a b same. hold_same same };

    ghost file = { λ t. file_at t.files };

    ghost listed = { λ t. listed_of t.files };

    ghost asked = { λ t. t.asked };

    ghost failed_reads = { λ t. t.calls.failed };

    ghost lists = { λ t. lists_of_files t.files };

    fn names(&mut self, alloc: Global, limit: u64) -> Result<NamesEnd, TreeFault>
        ensures form { IfOk result (IsListing limit) }
        ensures names { IfOk result (λ end. end ≡ names_end (listed_of self.old.files) limit) }
        ensures same { self.new.files ≡ self.old.files }
        ensures asked { self.new.asked ≡ self.old.asked }
        ensures cause { TreeCounts result self.old.calls.failed self.new.calls.failed }
        ensures fails { TreeFails result self.old.calls }
        ensures calls { MakesCall self.old.calls self.new.calls }
    {
        if self.calls.begin() {
            self.calls.fail();
            return Err(TreeFault::Failed);
        }
        match listing(alloc, self.files.as_slice(), limit) {
            Ok(end) => Ok(end),
            Err(_) => Err(TreeFault::NoMemory),
        }
    }

    fn read(&mut self, alloc: Global, path: &Text, limit: u64) -> Result<ReadEnd, TreeFault>
        ensures size { IfOk result (FitsReadLimit limit) }
        ensures bytes { IfOk result (λ end.
            end ≡ read_end (file_at self.old.files path.now) limit) }
        ensures same { self.new.files ≡ self.old.files }
        ensures asked { Asks result path.now self.old.asked self.new.asked }
        ensures cause { TreeCounts result self.old.calls.failed self.new.calls.failed }
        ensures fails { TreeFails result self.old.calls }
        ensures calls { MakesCall self.old.calls self.new.calls }
    {
        let fails = self.calls.begin();
        let noted = self.note(alloc, path);
        if fails {
            self.calls.fail();
            return Err(TreeFault::Failed);
        }
        let Ok(()) = noted else {
            return Err(TreeFault::NoMemory);
        };
        match read_file(alloc, self.files.as_slice(), path, limit) {
            Ok(end) => Ok(end),
            Err(_) => Err(TreeFault::NoMemory),
        }
    }

    fn forget(&mut self, alloc: Global)
        ensures same { self.new.files ≡ self.old.files }
        ensures asked { self.new.asked ≡ [] }
        ensures calls { self.new.calls ≡ self.old.calls }
    {
        self.asked = TextList::new(alloc);
    }
}
