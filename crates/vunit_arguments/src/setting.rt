//! What a command line says.

ghost use Rattle.std.specs.Prelude.{◌≡◌};
ghost use Rattle.vunit_arguments.specs.declared.setting.ArgumentsFault.TheVariants.{NoMemory as ArgumentsOutOfMemory};

use base::{MaybeText, NoMemory, TextList};
use std::alloc::{AllocError, AllocFailed};

/// The options of a command line: each field is the option of its name.
#[derive(Drop)]
pub struct Setting {
    /// Lists the selected tests.
    pub list: bool,
    /// Lists the files in compile order.
    pub files: bool,
    /// Compiles, and runs no test.
    pub compile: bool,
    /// Compiles or lists only the files that the selected tests need.
    pub minimal: bool,
    /// Goes on after a refusal, and skips what depends on a refused file.
    pub keep_compiling: bool,
    /// Starts no test after the first that didn't pass.
    pub fail_fast: bool,
    /// Empties the store before the build.
    pub clean: bool,
    /// The file of the JUnit text.
    pub xunit_xml: MaybeText,
    /// A failed test doesn't change the status.
    pub exit_0: bool,
    /// Shows the output of every test run.
    pub verbose: bool,
    /// Shows the output of no test run.
    pub quiet: bool,
    /// The most children at once, at least 1.
    pub num_threads: u64,
    /// The file of the JSON export.
    pub export_json: MaybeText,
    /// The size of a generated project; 0 if none is asked for.
    pub generate: u64,
    /// Selects the tests; `*` alone if no pattern is given.
    pub patterns: TextList,
}

/// Why a command line cannot be read.
#[derive(Clone, Copy, Debug, PartialEq, Eq)]
pub enum ArgumentsFault {
    NoMemory,
    /// The arguments are not a valid command line of the program.
    Bad,
}

impl From<NoMemory> for ArgumentsFault {
    ghost from_gives = { λ _ e. e ≡ ArgumentsOutOfMemory };

    fn from(_: NoMemory) -> ArgumentsFault {
        ArgumentsFault::NoMemory
    }
}

impl From<AllocError> for ArgumentsFault {
    ghost from_gives = { λ _ e. e ≡ ArgumentsOutOfMemory };

    fn from(_: AllocError) -> ArgumentsFault {
        ArgumentsFault::NoMemory
    }
}

impl<T: Drop> From<AllocFailed<T>> for ArgumentsFault {
    ghost from_gives = { λ _ e. e ≡ ArgumentsOutOfMemory };

    fn from(_: AllocFailed<T>) -> ArgumentsFault {
        ArgumentsFault::NoMemory
    }
}
