//! How a run can end: outcomes, refusals, passed limits, and outside objects that failed.

use crate::TestFault;
use base::{FileList, FileName, LexFault, ProjectFault, Text, UnitFault};

/// Why a project is refused: a fault in its sources, or files that the compiler refused.
#[derive(Drop)]
pub enum Refusal {
    /// There is no project file.
    NoProject,
    /// The project file has a fault.
    Project {
        fault: ProjectFault,
    },
    /// A file of the project doesn't exist.
    AbsentFile {
        file: FileName,
    },
    /// A file has a lexical fault.
    Lex {
        file: FileName,
        fault: LexFault,
    },
    /// A file has a fault of the unit grammar.
    Units {
        file: FileName,
        fault: UnitFault,
    },
    /// Two units of one name: `L.U`, `L.E(A)` or `body L.P`, with the files in which they are.
    DuplicateUnit {
        unit: Text,
        first: FileName,
        second: FileName,
    },
    /// A file refers to a primary unit that its library doesn't have.
    MissingUnit {
        file: FileName,
        library: Text,
        unit: Text,
    },
    /// A file refers to an architecture that the entity doesn't have.
    MissingArchitecture {
        file: FileName,
        library: Text,
        entity: Text,
        architecture: Text,
    },
    /// Each of these files depends on the next, and the last on the first.
    Cycle {
        files: FileList,
    },
    /// A fault in the benches.
    Tests {
        fault: TestFault,
    },
    /// The compiler refused these files, in compile order.
    Compiler {
        files: FileList,
    },
}

/// A quantity that is bounded.
#[derive(Clone, Copy, Debug, PartialEq, Eq)]
pub enum Limit {
    Slots,
    Names,
    Files,
    TextBytes,
    TotalBytes,
    Tests,
}

/// An outside object that failed. `Start` and `Child` are of the object that starts children.
#[derive(Clone, Copy, Debug, PartialEq, Eq)]
pub enum OutsideObject {
    Tree,
    Disk,
    Start,
    Child,
    Out,
    Report,
    Input,
}

/// How a run ended.
#[derive(Drop)]
pub enum Outcome {
    Done,
    TestsFailed,
    Refused(Refusal),
    /// The words aren't a command line of the program.
    BadWords,
    OutsideFault(OutsideObject),
    NoMemory,
    OverLimit(Limit),
    /// The program was started as a child, and ends with this code.
    Child(u32),
}
