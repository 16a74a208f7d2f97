//! A set of names of files, by a tree of their bytes.

ghost use Rattle.std.specs.Prelude.{◌≡◌, ◌++◌, [], ◌∷◌, not, IfOk, OnOk, OnErr};
ghost use Rattle.base_collections.specs.Names.{Holds};
ghost use Rattle.base_collections.specs.NameKeys.{name_of_key};
ghost use Rattle.base.specs.Names.{has_name};

use base::{FileName, NoMemory};
use std::alloc::Global;
use std::collections::BTreeSet;
use std::marker::Model;

/// A name of a file, ordered by library and then by path.
#[derive(PartialEq, Eq, PartialOrd, Ord, Drop)]
struct Key {
    library: Vec<u8>,
    path: Vec<u8>,
}

/// A set of names of files. Contracts see a list of the names in an unspecified order, and ask only which names it contains.
#[derive(Drop)]
pub struct NameSet {
    alloc: Global,
    set: BTreeSet<Key>,
}

impl Model for NameSet {
    ghost use Rattle.std.specs.Prelude.{List, map};
    ghost use Rattle.base.specs.declared.file.FileName.{FileName};
    ghost use Rattle.base_collections.specs.NameKeys.{name_of_key};

    ghost Value = { List FileName };

    ghost view = { λ a. map name_of_key a.set.keys };
}

/// The key of a name, in memory of its own.
fn key_of(alloc: Global, name: &FileName) -> Result<Key, NoMemory>
    ensures { IfOk result (λ key. name_of_key key ≡ name.now) }
{
    Ok(Key {
        library: Vec::from_slice(alloc, name.library.bytes())?,
        path: Vec::from_slice(alloc, name.path.bytes())?,
    })
}

impl NameSet {
    /// The set of no name, which takes no memory.
    pub fn new(alloc: Global) -> NameSet
        ensures { result ≡ [] }
    {
        NameSet {
            alloc,
            set: BTreeSet::new(alloc),
        }
    }

    /// Adds a name, and says whether it is new. It takes about as many comparisons as the number of names has binary
    /// digits. After `NoMemory` the set is unchanged.
    pub fn add(&mut self, name: &FileName) -> Result<bool, NoMemory>
        ensures is_new { IfOk result (λ is_new. is_new ≡ not (has_name self.old name.now)) }
        ensures ok { OnOk result (Holds self.new (self.old ++ name.now ∷ [])) }
        ensures err { OnErr result (self.new ≡ self.old) }
    {
        let key = key_of(self.alloc, name)?;
        Ok(self.set.insert(key)?)
    }
}
