//! What the words of the command line say is to be done.

ghost use Rattle.std.specs.Prelude.{◌≡◌, ◌≤◌, ◌<◌, ◌^◌, IfSome};
ghost use Rattle.std.specs.Str.{bytes_eq};
ghost use Rattle.run_spec.specs.JournalParts.{is_given};
ghost use Rattle.vunit_top.specs.Reading.{HasSlots, begins_with, query_kind_of, task_of, query_of};

use base::{MaybeText, SLOT_LIMIT, Text, TextList};
use project_reading::{Query, QueryKind};
use report::TestWords;
use run_build::BuildOptions;
use vunit_arguments::Setting;

/// How files are built and their tests are run.
#[derive(Drop)]
pub struct RunOptions {
    pub build: BuildOptions,
    /// Starts no test after the first that didn't pass.
    pub fail_fast: bool,
    pub words: TestWords,
    /// The file of the report of tests, where one is wanted.
    pub report: MaybeText,
    /// Which tests, and whether only the files that they need are built.
    pub query: Query,
}

/// What is done with the sources.
#[derive(Drop)]
pub enum Task {
    /// The files that are wanted are listed, in compile order.
    ListFiles(Query),
    /// The tests that one of the patterns matches are listed.
    ListTests(Query),
    /// The files, and the tests that one of the patterns matches, are written to the file of this path.
    Export(Text, Query),
    /// The files that are wanted are built.
    Build(BuildOptions, Query),
    /// The files are built, and then the tests that one of the patterns matches are run.
    Run(RunOptions),
}

/// What is wanted of the sources.
pub fn query_of<'a>(task: &'a Task) -> &'a Query
    ensures { result.now ≡ query_of task.entry.now }
{
    match task {
        Task::ListFiles(query) => query,
        Task::ListTests(query) => query,
        Task::Export(_path, query) => query,
        Task::Build(_options, query) => query,
        Task::Run(options) => &options.query,
    }
}

/// How much is wanted: only what the tests need that are selected, or else this.
fn query_kind_of(minimal: bool, other: QueryKind) -> QueryKind
    ensures { result ≡ query_kind_of minimal other }
{
    if minimal { QueryKind::Needed } else { other }
}

fn is_same(a: &[u8], b: &[u8]) -> bool
    ensures { result ≡ bytes_eq a.now b.now }
{
    a == b
}

/// Whether this is the first word.
pub fn begins_with(first: &[u8], words: &TextList) -> bool
    ensures { result ≡ begins_with first.now words.now }
{
    match words.as_slice() {
        [word, ..] => is_same(word.bytes(), first),
        [] => false,
    }
}

fn is_given(path: &MaybeText) -> bool
    ensures { result ≡ is_given path.entry.now }
{
    match path {
        MaybeText::Given(_) => true,
        MaybeText::Nothing => false,
    }
}

/// What a setting says is done with the sources.
pub fn task_of(setting: Setting) -> Task
    requires some { 1 ≤ setting.num_threads }
    requires few { setting.num_threads ≤ SLOT_LIMIT }
    ensures task { result ≡ task_of setting }
    ensures slots { HasSlots result }
{
    let Setting {
        list,
        files,
        compile,
        minimal,
        keep_compiling,
        clean,
        num_threads,
        fail_fast,
        xunit_xml,
        exit_0,
        verbose,
        quiet,
        export_json,
        generate: _,
        patterns,
    } = setting;
    if let MaybeText::Given(path) = export_json {
        let query_kind = QueryKind::Tests;
        return Task::Export(
            path,
            Query {
                query_kind,
                patterns,
            },
        );
    }
    if list {
        let query_kind = QueryKind::Tests;
        return Task::ListTests(Query {
            query_kind,
            patterns,
        });
    }
    if files {
        let query_kind = query_kind_of(minimal, QueryKind::Graph);
        return Task::ListFiles(Query {
            query_kind,
            patterns,
        });
    }
    let build = BuildOptions {
        slots: num_threads as u32,
        keep_going: keep_compiling,
        clean,
    };
    if compile {
        let query_kind = query_kind_of(minimal, QueryKind::Graph);
        return Task::Build(
            build,
            Query {
                query_kind,
                patterns,
            },
        );
    }
    let report = is_given(&xunit_xml);
    let query_kind = query_kind_of(minimal, QueryKind::Tests);
    Task::Run(RunOptions {
        build,
        fail_fast,
        words: TestWords {
            verbose,
            quiet,
            exit_0,
            report,
        },
        report: xunit_xml,
        query: Query {
            query_kind,
            patterns,
        },
    })
}
