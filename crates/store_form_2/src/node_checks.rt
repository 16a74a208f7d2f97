//! The test of a new node.

ghost use Rattle.std.specs.Prelude.{◌≡◌, ◌↔◌, ◌<◌, ◌≤◌, ◌++◌, ◌∷◌, [], length, All, IsTrue, IfOk, OnOk};
ghost use Rattle.base.specs.Names.{FitsName, FitsCommand};
ghost use Rattle.store_form_2.specs.Rows.{IsRowIn, node_in};
ghost use Rattle.store_form_2.specs.Fits.{HaveTexts, TellsFit};

use crate::listing::are_listed;
use crate::names::have_own_names;
use crate::sums::are_small;
use crate::{NodeTable, Row};
use base::{FILE_LIMIT, NoMemory, TEXT_LIMIT};
use base_bytes::is_command_within_limits;
use base_collections::NumberSet;
use std::alloc::Global;
use std::marker::Model;

/// Room to test new nodes in, with the lengths of the texts so far. Contracts see these lengths.
#[derive(Drop)]
pub struct NodeCheck {
    names: NumberSet,
    deps: NumberSet,
    covered: NumberSet,
    lengths: Vec<usize>,
}

impl Model for NodeCheck {
    ghost use Rattle.std.specs.Prelude.{List, ℕ};

    ghost Value = { List ℕ };

    ghost view = { λ a. a.lengths.items };
}

/// Whether the name, the command and the text of a row are within the limits of a graph. The text has `own` bytes.
fn has_own_sizes(table: &NodeTable, row: &Row, own: usize) -> bool
    requires { IsRowIn table.now.names table.now.commands row.now }
    ensures { IsTrue result
        ↔ (FitsName (node_in table.now row.now).name
        × (FitsCommand (node_in table.now row.now).command × (own ≤ TEXT_LIMIT))) }
{
    table.name(row.name).is_within_limits()
        && is_command_within_limits(table.command(row.command))
        && own <= TEXT_LIMIT
}

impl NodeCheck {
    /// No text, which takes no memory.
    pub fn new(alloc: Global) -> NodeCheck
        ensures { result ≡ [] }
    {
        NodeCheck {
            names: NumberSet::new(alloc),
            deps: NumberSet::new(alloc),
            covered: NumberSet::new(alloc),
            lengths: Vec::new(alloc),
        }
    }

    /// Notes the length of one more text.
    pub fn add_text(&mut self, count: usize) -> Result<(), NoMemory>
        ensures { OnOk result (self.new ≡ self.old ++ count ∷ []) }
    {
        self.lengths.push(count)?;
        Ok(())
    }

    /// Whether a row, with a text of `own` bytes, fits its dependencies and the limits of a graph. Of its dependencies, it walks
    /// only the lists of the ones that no later dependency lists.
    pub fn is_current(&mut self, table: &NodeTable, row: &Row, own: usize) -> Result<bool, NoMemory>
        requires in_table { IsRowIn table.now.names table.now.commands row.now }
        requires there { All (λ dep. dep < length table.now.nodes) row.now.deps }
        requires texts { HaveTexts self.old table.now.nodes }
        ensures fits { IfOk result (TellsFit self.old table.now row.now own) }
        ensures same { self.new ≡ self.old }
    {
        let deps = row.deps.as_slice();
        if deps.len() >= FILE_LIMIT {
            return Ok(false);
        }
        if !has_own_sizes(table, row, own) {
            return Ok(false);
        }
        self.names.grow_to(table.names())?;
        self.deps.grow_to(table.len())?;
        self.covered.grow_to(table.len())?;
        let own_names = have_own_names(&mut self.names, table, deps, row.name)?;
        if !own_names {
            return Ok(false);
        }
        let listed = are_listed(&mut self.deps, &mut self.covered, table, deps)?;
        if !listed {
            return Ok(false);
        }
        Ok(are_small(table, &self.lengths, deps, own))
    }
}
