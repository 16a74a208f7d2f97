//! The options of the command line.

/// The options that take a value.
pub const VALUED: &[&str] = &[
    "-p",
    "-x",
    "--num-threads",
    "--xunit-xml",
    "--export-json",
    "--generate",
];

/// The long names of all options.
pub const LONG: &[&'static str] = &[
    "--clean",
    "--compile",
    "--exit-0",
    "--export-json",
    "--fail-fast",
    "--files",
    "--generate",
    "--keep-compiling",
    "--list",
    "--minimal",
    "--num-threads",
    "--quiet",
    "--verbose",
    "--xunit-xml",
    "--help",
];

/// A line for each option.
pub const HELP: &[&str] = &[
    "PATTERN: compile what is out of date, and run the tests LIBRARY.BENCH.CASE that a pattern matches; all without one",
    "--compile: compile what is out of date, and run no test",
    "-l, --list: list the tests that a pattern matches",
    "-f, --files: list the files in compile order",
    "--export-json FILE: write the files and the tests to FILE as JSON",
    "--generate N: try the program over a project of N packages that it makes",
    "-p N, --num-threads N: start at most N compilers or simulators at once, 1 to 64",
    "-m, --minimal: take only the files that the tests need",
    "-k, --keep-compiling: go on after a refused file",
    "--clean: empty the store first, so that all is compiled",
    "-x FILE, --xunit-xml FILE: write what became of the tests to FILE as JUnit XML",
    "-v, --verbose: show what each simulator printed",
    "-q, --quiet: show it of none, and write no summaries",
    "--fail-fast: start no test once one has not passed",
    "--exit-0: end with 0 where tests failed",
];
