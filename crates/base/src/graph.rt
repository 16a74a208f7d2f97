//! Graphs of files in compile order, and the files that were built.

ghost use Rattle.std.specs.Prelude.{◌≡◌, ◌<◌, ◌++◌, ◌==◌, [], ◌∷◌, length, slice_get, Some, OnOk, OnErr};
ghost use Rattle.base.specs.Graphs.{IsGraph, IsBuilt, IsBuiltFile};

use crate::{FILE_LIMIT, FileName, NoMemory, Positions, Text, TextList};
use std::alloc::Global;
use std::marker::Model;

/// A file of a graph: its name, the words of its compiler's command, its text, and its dependencies. These are the positions in
/// compile order of all files that it depends on, directly or indirectly.
#[derive(Drop)]
pub struct Entry {
    pub name: FileName,
    pub command: TextList,
    pub text: Text,
    pub deps: Positions,
}

/// The files of a project in compile order. Contracts see their list, which is a graph.
#[derive(Drop)]
pub struct Graph {
    entries: Vec<Entry>,
}

impl Model for Graph {
    ghost use Rattle.std.specs.Prelude.{List};
    ghost use Rattle.base.specs.declared.graph.Entry.{Entry};
    ghost use Rattle.base.specs.Graphs.{IsGraph};

    ghost Value = { List Entry };

    ghost view = { λ a. a.entries.items };

    ghost invariant = { λ a. IsGraph a.entries.items };
}

impl Graph {
    /// The graph of no file, which takes no memory.
    pub fn new(alloc: Global) -> Graph
        ensures { result ≡ [] }
    {
        Graph {
            entries: Vec::new(alloc),
        }
    }

    /// The number of files.
    pub fn len(&self) -> u64
        ensures count { result ≡ length self.now }
        ensures graph { IsGraph self.now }
    {
        self.entries.len() as u64
    }

    /// Whether there is no file.
    pub fn is_empty(&self) -> bool
        ensures { result ≡ (length self.now == 0) }
    {
        self.entries.is_empty()
    }

    /// The file at a rank, counted from 0.
    pub fn get(&self, i: u64) -> &Entry
        requires { i < length self.now }
        ensures entry { slice_get self.now i ≡ Some result.now }
        ensures graph { IsGraph self.now }
    {
        &self.entries[i as usize]
    }

    /// The files, in order.
    pub fn as_slice(&self) -> &[Entry]
        ensures entries { result.now ≡ self.now }
        ensures graph { IsGraph self.now }
    {
        self.entries.as_slice()
    }

    /// Adds a file at the end. After `NoMemory` the graph is unchanged.
    pub fn push(&mut self, entry: Entry) -> Result<(), NoMemory>
        requires { IsGraph (self.old ++ entry ∷ []) }
        ensures ok { OnOk result (self.new ≡ self.old ++ entry ∷ []) }
        ensures err { OnErr result (self.new ≡ self.old) }
    {
        self.entries.push(entry)?;
        Ok(())
    }
}

/// A file with what its compiler gave for it.
#[derive(Drop)]
pub struct BuiltFile {
    pub name: FileName,
    pub artefact: Text,
}

/// Files that were built, in compile order. Contracts see their list.
#[derive(Drop)]
pub struct Built {
    files: Vec<BuiltFile>,
}

impl Model for Built {
    ghost use Rattle.std.specs.Prelude.{List};
    ghost use Rattle.base.specs.declared.graph.BuiltFile.{BuiltFile};
    ghost use Rattle.base.specs.Graphs.{IsBuilt};

    ghost Value = { List BuiltFile };

    ghost view = { λ a. a.files.items };

    ghost invariant = { λ a. IsBuilt a.files.items };
}

impl Built {
    /// No file, which takes no memory.
    pub fn new(alloc: Global) -> Built
        ensures { result ≡ [] }
    {
        Built {
            files: Vec::new(alloc),
        }
    }

    /// The number of files.
    pub fn len(&self) -> u64
        ensures count { result ≡ length self.now }
        ensures built { IsBuilt self.now }
    {
        self.files.len() as u64
    }

    /// Whether there is no file.
    pub fn is_empty(&self) -> bool
        ensures { result ≡ (length self.now == 0) }
    {
        self.files.is_empty()
    }

    /// The file at a rank, counted from 0.
    pub fn get(&self, i: u64) -> &BuiltFile
        requires { i < length self.now }
        ensures file { slice_get self.now i ≡ Some result.now }
        ensures built { IsBuilt self.now }
    {
        &self.files[i as usize]
    }

    /// The files, in order.
    pub fn as_slice(&self) -> &[BuiltFile]
        ensures files { result.now ≡ self.now }
        ensures built { IsBuilt self.now }
    {
        self.files.as_slice()
    }

    /// Adds a file at the end. After `NoMemory` the list is unchanged.
    pub fn push(&mut self, file: BuiltFile) -> Result<(), NoMemory>
        requires file { IsBuiltFile file }
        requires room { length self.old < FILE_LIMIT }
        ensures ok { OnOk result (self.new ≡ self.old ++ file ∷ []) }
        ensures err { OnErr result (self.new ≡ self.old) }
    {
        self.files.push(file)?;
        Ok(())
    }
}
