//! The table of nodes.

ghost use Rattle.std.specs.Prelude.{◌≡◌, ◌≢◌, ◌<◌, ◌++◌, ◌∷◌, [], AllPairs, Contains, length, slice_get, Some, IfOk, OnOk, OnErr};
ghost use Rattle.base_collections.specs.Numbers.{IsIndexOf, IsNumbered};
ghost use Rattle.store_form_2.specs.Rows.{IsRowIn, IsTable, node_in};

use crate::{Command, Row};
use base::{FileName, NoMemory, TextList};
use base_collections::Numbered;
use std::alloc::Global;
use std::marker::Model;

/// Nodes, each once, numbered from 0 in the order in which they came; and the names and commands of these and of others
/// to come, each once. Contracts see them, and whether there is room for one more node.
#[derive(Drop)]
pub struct NodeTable {
    names: Numbered<FileName>,
    commands: Numbered<Command>,
    rows: Numbered<Row>,
}

impl Model for NodeTable {
    ghost use Rattle.std.specs.Prelude.{map};
    ghost use Rattle.store_form_2.specs.Rows.{AreRows, NodesByNumber, node_of, words_of};

    ghost Value = { NodesByNumber };

    ghost view = { λ a. record { names = a.names.keys; commands = words_of a.commands.keys; rows = a.rows.keys; nodes = map (node_of a.names.keys (words_of a.commands.keys)) a.rows.keys; room = a.rows.room } };

    ghost invariant = { λ a. AreRows a.names.keys (words_of a.commands.keys) a.rows.keys };
}

impl NodeTable {
    /// No node, which takes no memory.
    pub fn new(alloc: Global) -> NodeTable
        ensures names { result.names ≡ [] }
        ensures rows { result.rows ≡ [] }
        ensures nodes { result.nodes ≡ [] }
    {
        NodeTable {
            names: Numbered::new(alloc),
            commands: Numbered::new(alloc),
            rows: Numbered::new(alloc),
        }
    }

    /// The number of nodes.
    pub fn len(&self) -> usize
        ensures len { result ≡ length self.now.nodes }
        ensures table { IsTable self.now }
    {
        self.rows.len()
    }

    /// The number of names. No two are the same.
    pub fn names(&self) -> usize
        ensures len { result ≡ length self.now.names }
        ensures once { AllPairs (λ a b. a ≢ b) self.now.names }
    {
        self.names.len()
    }

    /// The name of a number.
    pub fn name(&self, number: usize) -> &FileName
        requires { number < length self.now.names }
        ensures { slice_get self.now.names number ≡ Some result.now }
    {
        self.names.key(number)
    }

    /// The number of a name, which is added if it is new. The nodes are unchanged, and after `NoMemory` the names too.
    pub fn add_name(&mut self, name: FileName) -> Result<usize, NoMemory>
        ensures ok { IfOk result (λ number. IsNumbered name number self.old.names self.new.names) }
        ensures err { OnErr result (self.new.names ≡ self.old.names) }
        ensures commands { self.new.commands ≡ self.old.commands }
        ensures nodes { self.new.nodes ≡ self.old.nodes }
        ensures rows { self.new.rows ≡ self.old.rows }
    {
        self.names.add(name)
    }

    /// The command of a number.
    pub fn command(&self, number: usize) -> &TextList
        requires { number < length self.now.commands }
        ensures { slice_get self.now.commands number ≡ Some result.now }
    {
        &self.commands.key(number).words
    }

    /// The number of a command, which is added if it is new. The nodes are unchanged, and after `NoMemory` the commands too.
    pub fn add_command(&mut self, words: TextList) -> Result<usize, NoMemory>
        ensures ok { IfOk result
            (λ number. IsNumbered words number self.old.commands self.new.commands) }
        ensures err { OnErr result (self.new.commands ≡ self.old.commands) }
        ensures names { self.new.names ≡ self.old.names }
        ensures nodes { self.new.nodes ≡ self.old.nodes }
        ensures rows { self.new.rows ≡ self.old.rows }
    {
        self.commands.add(Command { words })
    }

    /// The number of the node that a row is, if it has one.
    pub fn node_number(&self, row: &Row) -> Option<usize>
        requires { IsRowIn self.now.names self.now.commands row.now }
        ensures { IsIndexOf self.now.nodes (node_in self.now row.now) result }
    {
        self.rows.number(row)
    }

    /// The node of a number, as a row.
    pub fn row(&self, number: usize) -> &Row
        requires { number < length self.now.nodes }
        ensures row { slice_get self.now.rows number ≡ Some result.now }
        ensures node { slice_get self.now.nodes number ≡ Some (node_in self.now result.now) }
        ensures in_table { IsRowIn self.now.names self.now.commands result.now }
    {
        self.rows.key(number)
    }

    /// Makes room for one more node. The nodes are unchanged.
    pub fn reserve(&mut self) -> Result<(), NoMemory>
        ensures names { self.new.names ≡ self.old.names }
        ensures commands { self.new.commands ≡ self.old.commands }
        ensures nodes { self.new.nodes ≡ self.old.nodes }
        ensures rows { self.new.rows ≡ self.old.rows }
        ensures room { OnOk result (0 < self.new.room) }
    {
        self.rows.reserve()
    }

    /// Adds a node that has no number at the end. It takes no memory.
    pub fn put(&mut self, row: Row)
        requires room { 0 < self.old.room }
        requires in_table { IsRowIn self.old.names self.old.commands row }
        requires new { ¬ Contains self.old.nodes (node_in self.old row) }
        ensures nodes { self.new.nodes ≡ self.old.nodes ++ node_in self.old row ∷ [] }
        ensures rows { self.new.rows ≡ self.old.rows ++ row ∷ [] }
        ensures names { self.new.names ≡ self.old.names }
        ensures commands { self.new.commands ≡ self.old.commands }
    {
        self.rows.put(row);
    }
}
