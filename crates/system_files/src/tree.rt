//! The tree: what it was asked for, and its failures.

ghost use Rattle.std.specs.Prelude.{◌≡◌, ◌<◌, ◌++◌, [], ◌∷◌, vec_len, OnOk, OnErr};
ghost use Rattle.system_files.specs.UntoldFiles.{no_file, lists_nothing};

use crate::listing::list_names;
use crate::{Cause, IoFault, read_file};
use base::{NoMemory, Text, TextList};
use outside::{NamesEnd, ReadEnd, Tree, TreeFault, count_fault};
use std::alloc::Global;
use std::fs::Files;

/// The bytes that one read takes at most: most sources come in one.
const CHUNK: usize = 65536;

/// The present folder. It counts its failures, and tells what it was asked for, but nothing of what it holds.
#[derive(Drop)]
pub struct FileTree<R> {
    files: R,
    // the paths that were read or tried, in order, since the tree last forgot them: a run asks for each path once
    asked: TextList,
    failures: u64,
    // why a call failed, and in a listing the path of the folder or the entry where that was
    cause: Option<Cause>,
    failed_at: Option<String>,
    // whether the last listing found a link that leads to no file, if it came to its end
    has_link: Option<bool>,
    buffer: Vec<u8>,
    ghost has_room: { 0 < vec_len buffer },
}

impl<R: Files> FileTree<R> {
    /// The tree over a runtime. Nothing is asked for and no call of the system is made yet.
    pub fn new(alloc: Global, files: R) -> Result<FileTree<R>, NoMemory>
    where
        R: Drop,
    {
        Ok(FileTree {
            files,
            asked: TextList::new(alloc),
            failures: 0,
            cause: None,
            failed_at: None,
            has_link: None,
            buffer: vec![in alloc; 0; CHUNK]?,
        })
    }

    /// Why a call failed, and the path that it was of, if one failed.
    pub fn cause(&self) -> Option<(&[u8], Cause)> {
        let cause = self.cause?;
        match (&self.failed_at, self.asked.as_slice().last()) {
            (Some(path), _) if path.is_empty() => Some((b".", cause)),
            (Some(path), _) => Some((path.as_bytes(), cause)),
            (None, Some(path)) => Some((path.bytes(), cause)),
            (None, None) => Some((b".", cause)),
        }
    }

    /// Whether a link to a folder may lie below the present folder, as far as the last listing knows.
    pub fn may_have_linked_folder(&self) -> bool {
        self.has_link != Some(false)
    }

    /// Adds a path at the end of the list of requested paths.
    fn note(&mut self, alloc: Global, path: &Text) -> Result<(), NoMemory>
        ensures asked { OnOk result (self.new.asked ≡ self.old.asked ++ path.now ∷ []) }
        ensures unchanged { OnErr result (self.new.asked ≡ self.old.asked) }
        ensures failures { self.new.failures ≡ self.old.failures }
    {
        self.asked.push(path.copy(alloc)?)
    }
}

impl<R: Files + AllocGlobal + Clone + Drop> Tree for FileTree<R> {
    ghost use Rattle.system_files.specs.UntoldFiles.{untold_same};

    ghost tells = { ⊥ };

    ghost Kept = { Unit {0} };

    ghost kept = { λ _. tt };

    ghost holds = { λ _ _ _. untold_same };

    ghost file = { λ _. no_file };

    ghost listed = { λ _. [] };

    ghost asked = { λ a. a.asked };

    ghost failed_reads = { λ a. a.failures };

    ghost lists = { λ _. lists_nothing };

    fn names(&mut self, alloc: Global, limit: u64) -> Result<NamesEnd, TreeFault> {
        let buffer = self.buffer.as_mut_slice();
        let (failed_at, has_link) = (&mut self.failed_at, &mut self.has_link);
        match list_names(&self.files, buffer, alloc, limit, failed_at, has_link) {
            Ok(end) => Ok(end),
            Err(IoFault::NoMemory) => Err(TreeFault::NoMemory),
            Err(IoFault::Failed(cause)) => {
                self.cause = Some(cause);
                self.failures = count_fault(self.failures);
                Err(TreeFault::Failed)
            }
        }
    }

    fn read(&mut self, alloc: Global, path: &Text, limit: u64) -> Result<ReadEnd, TreeFault> {
        let Ok(()) = self.note(alloc, path) else {
            return Err(TreeFault::NoMemory);
        };
        let buffer = self.buffer.as_mut_slice();
        match read_file(&self.files, buffer, alloc, path.bytes(), limit) {
            Ok(end) => Ok(end),
            Err(IoFault::NoMemory) => Err(TreeFault::NoMemory),
            Err(IoFault::Failed(cause)) => {
                self.cause = Some(cause);
                self.failures = count_fault(self.failures);
                Err(TreeFault::Failed)
            }
        }
    }

    fn forget(&mut self, alloc: Global) {
        self.asked = TextList::new(alloc);
    }
}
