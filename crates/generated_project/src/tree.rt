//! The tree of the generated project.

ghost use Rattle.std.specs.Prelude.{◌≡◌, ◌⊎◌, [], ◌∷◌, ◌++◌, Some, IfOk, IfSome, OnOk};
ghost use Rattle.outside.specs.Counts.{TreeCounts};
ghost use Rattle.outside.specs.Trees.{IsListing, names_end, read_end, FitsReadLimit, Asks};
ghost use Rattle.memory_outside.specs.Trees.{file_at, listed_of};
ghost use Rattle.memory_outside.specs.TreeLaws.{lists_of_files};
ghost use Rattle.generated_project.specs.Files.{generated_files};

use crate::numbers::number_in;
use crate::{generated_files, package_path, package_text};
use base::{NoMemory, Numbers, Text, TextList};
use memory_outside::MemTree;
use outside::{NamesEnd, ReadEnd, Tree, TreeFault};
use std::alloc::Global;
use std::marker::Model;

/// The files of the generated project in memory. The file of a package is found by the number in its path, however many there
/// are; any other by a walk.
#[derive(Drop)]
pub struct GeneratedTree {
    tree: MemTree,
    asked: TextList,
    packages: u32,
    edited: u64,
}

impl Model for GeneratedTree {
    ghost use Rattle.std.specs.Prelude.{◌≡◌};
    ghost use Rattle.generated_project.specs.HeldFiles.{HeldFiles};
    ghost use Rattle.generated_project.specs.Files.{generated_files};

    ghost Value = { HeldFiles };

    ghost view = { λ t. record {
      files = t.tree.files;
      asked = t.asked;
      failed = t.tree.calls.failed;
      packages = t.packages;
      edited = t.edited;
    } };

    ghost invariant = { λ t. t.tree.files ≡ generated_files t.packages t.edited };
}

/// A text, up to a limit.
fn read_text(text: Text, limit: u64) -> ReadEnd
    ensures size { FitsReadLimit limit result }
    ensures bytes { result ≡ read_end (Some text) limit }
{
    if text.bytes().len() as u64 <= limit {
        ReadEnd::Got(text)
    } else {
        ReadEnd::TooLong
    }
}

/// The text of the file of a path, if it is the path of a package.
fn package_of(
    alloc: Global,
    packages: u32,
    edited: u64,
    path: &Text,
) -> Result<Option<Text>, NoMemory>
    ensures { IfOk result (λ found. IfSome found (λ text.
        file_at (generated_files packages edited) path.now ≡ Some text)) }
{
    let number = number_in(path.bytes());
    if number == 0 {
        return Ok(None);
    }
    if number > packages as u64 {
        return Ok(None);
    }
    let own = package_path(alloc, number)?;
    if !own.same(path) {
        return Ok(None);
    }
    Ok(Some(package_text(alloc, number, number == edited)?))
}

impl GeneratedTree {
    /// The tree of the generated project with `packages` packages. The one with the number `edited` is edited, if there is
    /// one.
    pub fn new(alloc: Global, packages: u32, edited: u64) -> Result<GeneratedTree, NoMemory>
        ensures files { IfOk result (λ tree. tree.files ≡ generated_files packages edited) }
    {
        let files = generated_files(alloc, packages, edited)?;
        Ok(GeneratedTree {
            tree: MemTree::new(alloc, files, Numbers::new(alloc)),
            asked: TextList::new(alloc),
            packages,
            edited,
        })
    }

    /// Adds a path to the end of the list of the paths that were asked for.
    fn note(&mut self, alloc: Global, path: &Text) -> Result<(), NoMemory>
        ensures files { self.new.files ≡ self.old.files }
        ensures asked { OnOk result (self.new.asked ≡ self.old.asked ++ path.now ∷ []) }
        ensures either { (self.new.asked ≡ self.old.asked)
            ⊎ (self.new.asked ≡ self.old.asked ++ path.now ∷ []) }
        ensures failed { self.new.failed ≡ self.old.failed }
        ensures packages { self.new.packages ≡ self.old.packages }
        ensures edited { self.new.edited ≡ self.old.edited }
    {
        self.asked.push(path.copy(alloc)?)
    }

    /// The bytes of a file, found by a walk.
    fn walk(&mut self, alloc: Global, path: &Text, limit: u64) -> Result<ReadEnd, TreeFault>
        ensures size { IfOk result (FitsReadLimit limit) }
        ensures bytes { IfOk result (λ end.
            end ≡ read_end (file_at self.old.files path.now) limit) }
        ensures files { self.new.files ≡ self.old.files }
        ensures asked { self.new.asked ≡ self.old.asked }
        ensures cause { TreeCounts result self.old.failed self.new.failed }
    {
        self.tree.read(alloc, path, limit)
    }
}

impl Tree for GeneratedTree {
    ghost use Rattle.std.specs.Prelude.{List};
    ghost use Rattle.base.specs.declared.file.NamedText.{NamedText};
    ghost use Rattle.memory_outside.specs.Trees.{hold_same};

    ghost tells = { Unit {0} };

    ghost Kept = { List NamedText };

    ghost kept = { λ t. t.files };

    ghost holds = { λ a b same. hold_same same };

    ghost file = { λ t. file_at t.files };

    ghost listed = { λ t. listed_of t.files };

    ghost asked = { λ t. t.asked };

    ghost failed_reads = { λ t. t.failed };

    ghost lists = { λ t. lists_of_files t.files };

    fn names(&mut self, alloc: Global, limit: u64) -> Result<NamesEnd, TreeFault>
        ensures form { IfOk result (IsListing limit) }
        ensures names { IfOk result (λ end. end ≡ names_end (listed_of self.old.files) limit) }
        ensures same { self.new.files ≡ self.old.files }
        ensures asked { self.new.asked ≡ self.old.asked }
        ensures cause { TreeCounts result self.old.failed self.new.failed }
    {
        self.tree.names(alloc, limit)
    }

    fn read(&mut self, alloc: Global, path: &Text, limit: u64) -> Result<ReadEnd, TreeFault>
        ensures size { IfOk result (FitsReadLimit limit) }
        ensures bytes { IfOk result (λ end.
            end ≡ read_end (file_at self.old.files path.now) limit) }
        ensures same { self.new.files ≡ self.old.files }
        ensures asked { Asks result path.now self.old.asked self.new.asked }
        ensures cause { TreeCounts result self.old.failed self.new.failed }
    {
        let Ok(()) = self.note(alloc, path) else {
            return Err(TreeFault::NoMemory);
        };
        match package_of(alloc, self.packages, self.edited, path) {
            Ok(Some(text)) => Ok(read_text(text, limit)),
            Ok(None) => self.walk(alloc, path, limit),
            Err(_) => Err(TreeFault::NoMemory),
        }
    }

    fn forget(&mut self, alloc: Global)
        ensures same { self.new.files ≡ self.old.files }
        ensures asked { self.new.asked ≡ [] }
        ensures failed { self.new.failed ≡ self.old.failed }
    {
        self.asked = TextList::new(alloc);
    }
}
