//! The files that wait, and which of them is ready.

ghost use Rattle.std.specs.Prelude.{◌≡◌, ℕ, List, ◌≤◌, length};
ghost use Rattle.base.specs.declared.limits.TheConstants.{FILE_LIMIT};
ghost use Rattle.base_collections.specs.Positions.{has};
ghost use Rattle.order.specs.Counts.{AreReady};

use crate::lists::{add_users, lower, no_users, ready_files, set_missing, take_out};
use base::{FILE_LIMIT, NoMemory, Positions};
use base_collections::PositionSet;
use std::alloc::Global;

/// Files of which each waits until all that it depends on is done. All calls together take time in proportion to the files
/// and what they depend on, and one word of 64 files more for each call of `next`.
#[derive(Drop)]
pub struct ReadyFiles {
    /// The files that wait.
    waiting: Vec<bool>,
    /// For each file that waits, the number of its dependencies that aren't done.
    missing: Vec<usize>,
    /// For each file, the files that depend on it.
    users: Vec<Positions>,
    /// The files that wait and whose dependencies are all done.
    ready: PositionSet,
    ghost few: { length waiting.items ≤ FILE_LIMIT },
    ghost as_many_missing: { length missing.items ≡ length waiting.items },
    ghost as_many_users: { length users.items ≡ length waiting.items },
    ghost exact: { AreReady (has ready) waiting.items missing.items },
}

impl ReadyFiles {
    ghost use Rattle.std.specs.Prelude.{◌≡◌, ◌≢◌, ◌+◌, ◌<◌, ◌≤◌, ◌==◌, ◌&&◌, ◌||◌, not, Bool, true, false, List, [], length, All, Option, IfOk, OnOk, slice_index_or};
    ghost use Rattle.std.specs.Option.{IfSome};
    ghost use Rattle.base_collections.specs.Positions.{IsNext};
    ghost use Rattle.order.specs.Counts.{undone, is_ready};
    ghost use Rattle.order.specs.Waits.{AreWaitingFiles, file_count, wait_count, is_listed};

    /// Files of which these wait, and none depends on another.
    pub fn new(alloc: Global, waiting: Vec<bool>) -> Result<ReadyFiles, NoMemory>
        requires { length waiting.items ≤ FILE_LIMIT }
        ensures files { IfOk result (λ files. file_count files ≡ length waiting.items) }
        ensures waits { IfOk result (λ files. (done : ℕ → Bool) →
            AreWaitingFiles files (length waiting.items) (λ file. [])
            (λ file. slice_index_or waiting.items file false) done) }
    {
        let users = no_users(alloc, waiting.len())?;
        let missing = vec![in alloc; 0; waiting.len()]?;
        let ready = ready_files(waiting.as_slice(), missing.as_slice());
        Ok(ReadyFiles {
            waiting,
            missing,
            users,
            ready,
        })
    }

    /// Sets the dependencies of a file that had no dependencies so far. `missing` is how many of them aren't done.
    pub fn depends(&mut self, file: u32, deps: &[u32], missing: usize) -> Result<(), NoMemory>
        requires file { file < file_count self.old }
        requires deps { All (λ dep. dep < file_count self.old) deps.now }
        ensures files { file_count self.new ≡ file_count self.old }
        ensures waits { OnOk result ((count : ℕ) (old new : ℕ → List ℕ) (waits done : ℕ → Bool) →
            AreWaitingFiles self.old count old waits done → old file ≡ [] → new file ≡ deps.now →
            ((k : ℕ) → k ≢ file → new k ≡ old k) → missing ≡ undone done deps.now →
            AreWaitingFiles self.new count new waits done) }
    {
        add_users(&mut self.users, deps, file)?;
        set_missing(
            file,
            missing,
            self.waiting.as_slice(),
            &mut self.missing,
            &mut self.ready,
        );
        Ok(())
    }

    /// The first file that waits and all of whose dependencies are done.
    pub fn next(&self) -> Option<u32>
        ensures within { IfSome result (λ file. file < file_count self.now) }
        ensures next { IsNext (is_listed self.now) 0 result }
        ensures exact { (count : ℕ) (deps : ℕ → List ℕ) (waits done : ℕ → Bool) →
            AreWaitingFiles self.now count deps waits done → (file : ℕ) → file < count →
            is_listed self.now file ≡ is_ready deps waits done file }
        ensures past { (file : ℕ) → file_count self.now ≤ file → is_listed self.now file ≡ false }
    {
        self.ready.next_from(0)
    }

    /// A file waits no more.
    pub fn take(&mut self, file: u32)
        requires { file < file_count self.old }
        ensures files { file_count self.new ≡ file_count self.old }
        ensures waits { (count : ℕ) (deps : ℕ → List ℕ) (old new done : ℕ → Bool) →
            AreWaitingFiles self.old count deps old done →
            ((k : ℕ) → new k ≡ (old k && not (file == k))) →
            AreWaitingFiles self.new count deps new done }
        ensures no_more { wait_count self.new ≤ wait_count self.old }
        ensures fewer { is_listed self.old file ≡ true →
            wait_count self.new + 1 ≡ wait_count self.old }
    {
        take_out(&mut self.waiting, &mut self.ready, file);
    }

    /// A file is done that wasn't.
    pub fn finish(&mut self, file: u32)
        requires { file < file_count self.old }
        ensures files { file_count self.new ≡ file_count self.old }
        ensures waits { (count : ℕ) (deps : ℕ → List ℕ) (waits old new : ℕ → Bool) →
            AreWaitingFiles self.old count deps waits old → old file ≡ false →
            ((k : ℕ) → new k ≡ (old k || file == k)) →
            AreWaitingFiles self.new count deps waits new }
        ensures as_many { wait_count self.new ≡ wait_count self.old }
    {
        lower(
            self.users[file as usize].as_slice(),
            self.waiting.as_slice(),
            &mut self.missing,
            &mut self.ready,
        );
    }

    /// Of each file whether it waits.
    pub fn waiting_flags(&self) -> &[bool]
        ensures { (count : ℕ) (deps : ℕ → List ℕ) (waits done : ℕ → Bool) →
            AreWaitingFiles self.now count deps waits done → (length result.now ≡ count) ×
            ((file : ℕ) → file < count → slice_index_or result.now file false ≡ waits file) }
    {
        self.waiting.as_slice()
    }
}
