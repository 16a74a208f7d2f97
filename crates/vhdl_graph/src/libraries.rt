//! The libraries of a project: the libraries that have files, and the external ones.

ghost use Rattle.std.specs.Prelude.{◌≡◌, ℕ, List, ◌||◌, IfOk, OnOk};
ghost use Rattle.std.specs.List.{list_any};
ghost use Rattle.std.specs.Str.{bytes_eq};
ghost use Rattle.vhdl_graph.specs.Libraries.{AreLibraries, always_external, knows, stands_outside};
ghost use Rattle.vhdl_spec.specs.Dependencies.{is_one_of};

use base::{NoMemory, Project, ProjectFile, Text};
use indexmap::IndexSet;
use std::alloc::Global;

/// Names of libraries.
pub type Names = IndexSet<Vec<u8>>;

static STD: [u8; 3] = *b"std";

static IEEE: [u8; 4] = *b"ieee";

static VUNIT: [u8; 9] = *b"vunit_lib";

/// The libraries of a project. `own` has the libraries that have files in it. `external` has the libraries that the
/// project lists as external, and `std`, `ieee` and `vunit_lib`.
#[derive(Drop)]
pub struct Libraries {
    pub own: Names,
    pub external: Names,
}

/// A list of at most this many names is searched name by name, which takes less time than hashing the bytes of one
/// name.
const FEW: usize = 8;

/// Whether a name is among few names.
fn is_among(names: &[Vec<u8>], name: &[u8]) -> bool
    ensures { result ≡ list_any (λ key. bytes_eq name.now key.items) names.now }
{
    for key in names {
        if name == key.as_slice() {
            return true;
        }
    }
    false
}

/// Whether a name is among names.
pub fn has_name(names: &Names, name: &[u8]) -> bool
    ensures { result ≡ knows names.now name.now }
{
    if names.len() <= FEW {
        return is_among(names.as_slice(), name);
    }
    names.contains(name)
}

/// Adds a name, unless it is already in the set.
fn add_name(alloc: Global, names: &mut Names, name: &[u8]) -> Result<(), NoMemory>
    ensures { OnOk result ((other : List ℕ) →
        knows names.new other ≡ (knows names.old other || bytes_eq other name.now)) }
{
    if !names.contains(name) {
        names.insert(Vec::from_slice(alloc, name)?)?;
    }
    Ok(())
}

/// The libraries of files.
fn own_names(alloc: Global, files: &[ProjectFile]) -> Result<Names, NoMemory>
    ensures { IfOk result (λ names. (other : List ℕ) →
        knows names other ≡ list_any (λ file. bytes_eq other file.name.library) files.now) }
{
    let mut names = Names::new(alloc);
    for file in files {
        add_name(alloc, &mut names, file.name.library.bytes())?;
    }
    Ok(names)
}

/// These names.
fn names_of(alloc: Global, list: &[Text]) -> Result<Names, NoMemory>
    ensures { IfOk result (λ names. (other : List ℕ) →
        knows names other ≡ is_one_of list.now other) }
{
    let mut names = Names::new(alloc);
    for name in list {
        add_name(alloc, &mut names, name.bytes())?;
    }
    Ok(names)
}

/// These names, and those of the libraries that are always outside.
fn external_names(alloc: Global, list: &[Text]) -> Result<Names, NoMemory>
    ensures { IfOk result (λ names. (other : List ℕ) →
        knows names other ≡ (is_one_of list.now other || is_one_of always_external other)) }
{
    let mut names = names_of(alloc, list)?;
    add_name(alloc, &mut names, STD.as_slice())?;
    add_name(alloc, &mut names, IEEE.as_slice())?;
    add_name(alloc, &mut names, VUNIT.as_slice())?;
    Ok(names)
}

/// The libraries of a project.
pub fn libraries_of(alloc: Global, project: &Project) -> Result<Libraries, NoMemory>
    ensures { IfOk result (AreLibraries project.now) }
{
    Ok(Libraries {
        own: own_names(alloc, project.files.as_slice())?,
        external: external_names(alloc, project.external.as_slice())?,
    })
}

/// Whether a library is outside of the project: it has no files in it, and it is external.
pub fn is_external(libraries: &Libraries, library: &Text) -> bool
    ensures { result ≡ stands_outside libraries.now library.now }
{
    let library = library.bytes();
    !has_name(&libraries.own, library) && has_name(&libraries.external, library)
}
