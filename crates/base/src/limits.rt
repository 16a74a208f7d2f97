//! The limits of what the program takes, each once, for code and for clauses. Sizes are in bytes.

/// The most files of a graph.
pub const FILE_LIMIT: usize = 4_096;

/// The most bytes of one text.
pub const TEXT_LIMIT: usize = 4_194_304;

/// The most bytes of all texts of a graph.
pub const GRAPH_TEXT_LIMIT: usize = 67_108_864;

/// The most bytes of an artefact, and of the output of a child.
pub const ARTEFACT_LIMIT: usize = 262_144;

/// The most bytes of the results of a child.
pub const RESULTS_LIMIT: usize = 1_048_576;

/// The most bytes of the name of a library.
pub const LIBRARY_LIMIT: usize = 64;

/// The most bytes of a path.
pub const PATH_LIMIT: usize = 1_024;

/// The most words of the command of a compiler.
pub const COMMAND_LIMIT: usize = 64;

/// The most words of the command of a simulator.
pub const SIMULATOR_LIMIT: usize = 32;

/// The most words of a command in a project file.
pub const LISTED_WORD_LIMIT: usize = 32;

/// The most bytes of a word of a command.
pub const WORD_LIMIT: usize = 1_024;

/// The most children at once.
pub const SLOT_LIMIT: usize = 64;

/// The most names that a folder lists.
pub const NAME_LIMIT: usize = 65_536;

/// The most test cases of a project.
pub const CASE_LIMIT: usize = 65_536;
