//! Projects, and the faults of a project file.

use crate::{FileName, Items, Text, TextList};

/// A file of a project, and the words of its compiler's command.
#[derive(Drop)]
pub struct ProjectFile {
    pub name: FileName,
    pub command: TextList,
}

pub type ProjectFileList = Items<ProjectFile>;

/// One file of a project depends on another: their ranks among its files.
#[derive(Clone, Copy, Debug, PartialEq, Eq)]
pub struct Pair {
    pub user: u64,
    pub used: u64,
}

pub type PairList = Items<Pair>;

/// What a project file says.
#[derive(Drop)]
pub struct Project {
    pub files: ProjectFileList,
    /// The words of the simulator.
    pub simulator: TextList,
    /// The libraries that stand outside of the project.
    pub external: TextList,
    /// Whether the user of a package depends on the body of it too.
    pub bodies: bool,
    /// Dependencies that the project file names itself.
    pub depends: PairList,
    /// Whether the files are listed in compile order, and so aren't linked.
    pub listed: bool,
}

/// The first fault of a project file. A key is named as in `library.files`.
#[derive(Debug, Drop)]
pub enum ProjectFault {
    /// The bytes aren't a TOML text.
    NotToml,
    /// There is no such key.
    MissingKey { key: Text },
    /// The value of a key is of another form.
    WrongType { key: Text },
    /// A library is named `work`.
    WorkLibrary,
    /// A library came before.
    DuplicateLibrary { name: Text },
    /// A file came before.
    DuplicateFile { name: FileName },
    /// A pattern of files matches no name.
    NothingMatches { pattern: Text },
    /// A line that names no library and path, counted from 1.
    BadLine { line: u32 },
    /// A dependency names a file that isn't in the project.
    UnknownDependency { name: FileName },
}
