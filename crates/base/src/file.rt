//! Names of files, and files by name.

ghost use Rattle.std.specs.Prelude.{[], ◌∷◌};
ghost use Rattle.std.specs.Cmp.Rules.{comparing, hashing};
ghost use Rattle.std.proofs.Common.{rules};
ghost use Rattle.base.specs.Names.{is_same_name};

use crate::{Items, LIBRARY_LIMIT, NoMemory, PATH_LIMIT, Text};
use std::alloc::Global;
use std::hash::{Hash, Hasher};

/// What names a file of a project: the library that it is analysed into, and its path in the project folder.
#[derive(Debug, Drop)]
pub struct FileName {
    pub library: Text,
    pub path: Text,
}

pub type FileList = Items<FileName>;

impl PartialEq for FileName {
    ghost eq = { is_same_name };

    ghost laws = { Prim.search (comparing, rules) };

    fn eq(&self, other: &FileName) -> bool {
        self.path.same(&other.path) && self.library.same(&other.library)
    }
}

impl Eq for FileName {
    ghost laws = { Prim.search (comparing, rules) };
}

/// Each part is handed over whole.
impl Hash for FileName {
    ghost hash_input = { λ a. a.library ∷ (a.path ∷ []) };

    ghost respects_eq = { Prim.search (hashing, rules) };

    fn hash<H: Hasher>(&self, state: &mut H) {
        state.write(self.library.bytes());
        state.write(self.path.bytes());
    }
}

impl FileName {
    ghost use Rattle.std.specs.Prelude.{◌≡◌, ◌↔◌, IfOk, IsTrue};
    ghost use Rattle.base.specs.Names.{FitsName};

    /// The same name, in memory of its own.
    pub fn copy(&self, alloc: Global) -> Result<FileName, NoMemory>
        ensures { IfOk result (λ name. name ≡ self.now) }
    {
        Ok(FileName {
            library: self.library.copy(alloc)?,
            path: self.path.copy(alloc)?,
        })
    }

    /// Whether this names a file of a project: a library of 1 to 64 bytes, and a path of 1 to 1,024.
    pub fn is_within_limits(&self) -> bool
        ensures { IsTrue result ↔ FitsName self.now }
    {
        let library = self.library.bytes().len();
        let path = self.path.bytes().len();
        1 <= library && library <= LIBRARY_LIMIT && 1 <= path && path <= PATH_LIMIT
    }
}

/// A file of a tree: its path and its bytes.
#[derive(Drop)]
pub struct NamedText {
    pub path: Text,
    pub bytes: Text,
}

pub type NamedTextList = Items<NamedText>;
