//! Project files in TOML that give as many files as a project may have, and more.

use crate::tests::projects::{add_file, add_numbered, expand_lines, shown_stop, the_graph};
use base::{FILE_LIMIT, Items, NamedTextList, Numbers, Text};
use memory_outside::{MemTree, have_paths};
use project_reading::read_project;
use std::alloc::Global;
use std::process::Abort;
use std::test::Fail;

/// One row per line: a project file over 2,048 names from `f00000` on, and after a `~` the result. A bar stands for the end of
/// a line. Two libraries of all names have the greatest number of files. A fault of the project file is reported rather than
/// too many files. If the project file is accepted, the read of its first file fails.
static ROWS: &str = "library=[{name='a',files=['f*']},{name='b',files=['f*']}]~failed
library=[{name='a',files=['f*']},{name='b',files=['f*','f00001']},{name='c',files=[]}]~failed
library=[{name='a',files=['f*']},{name='b',files=['f*']},{name='c',files=['f02047']}]~vunit_run: over limit: files 4096|
library=[{name='a',files=['f*']},{name='b',files=['f*']},{name='c',files=['f*']},{name='d',files=['*']}]~vunit_run: over limit: files 4096|
library=[{name='a',files=['f*']},{name='b',files=['f*']},{name='c',files=['f*']},{name='B',files=['f*']}]~vunit_run: library b stands twice|
library=[{name='a',files=['f*']},{name='b',files=['f*']},{name='c',files=['f*']},{name='work',files=['f*']}]~vunit_run: a library may not be named work|
library=[{name='a',files=['f*']},{name='b',files=['f*']},{name='c',files=['f*']},{files=['f*']}]~vunit_run: vunit.toml: no key library.name|
library=[{name='a',files=['f*']},{name='b',files=['f*']},{name='c',files=['f*']},{name='d'}]~vunit_run: vunit.toml: no key library.files|
library=[{name='a',files=['f*']},{name='b',files=['f*']},{name='c',files=['f*']},{name='d',files=['f02047','f02048']}]~vunit_run: nothing matches f02048|
library=[{name='a',files=['f*']},{name='b',files=['f*']},{name='c',files=['f*']},{name='d',files=['f*'],options=1}]~vunit_run: vunit.toml: wrong value of library.options|
depends=[{library='c',path='f02047',on_library='A',on_path='f00000'}]|library=[{name='a',files=['f*']},{name='b',files=['f*']},{name='c',files=['f02*']}]~vunit_run: over limit: files 4096|
depends=[{library='c',path='f02047',on_library='c',on_path='f01999'}]|library=[{name='a',files=['f*']},{name='b',files=['f*']},{name='c',files=['f02*']}]~vunit_run: c, f01999 isn't in the project|
depends=[{library='d',path='f00000',on_library='a',on_path='f00000'}]|library=[{name='a',files=['f*']},{name='b',files=['f*']},{name='c',files=['f02*']}]~vunit_run: d, f00000 isn't in the project|
depends=[{library='b',path='f00000',on_library='a',on_path='f02048'}]|library=[{name='a',files=['f*']},{name='b',files=['f*']},{name='c',files=['f02*']}]~vunit_run: a, f02048 isn't in the project|
depends=[{library='b',path='f00000',on_library='a'}]|library=[{name='a',files=['f*']},{name='b',files=['f*']},{name='c',files=['f02*']}]~vunit_run: vunit.toml: no key depends.on_path|
";

/// The call of the tree that reads the first file of a project, after its project file and the names.
const FIRST_FILE: u64 = 2;

/// A project file of one library of all names.
static ALL: &str = "library=[{name='a',files=['f*']}]";

fn read_of(alloc: Global, tree: &mut MemTree) -> Result<Text, Fail> {
    match read_project(alloc, tree, &the_graph(alloc)) {
        Ok(_read) => Ok(Text::new(alloc)),
        Err(stop) => shown_stop(alloc, &stop),
    }
}

/// The result of reading a project file over `count` names, where the read of its first file fails.
fn text_of_project(rt: &impl Abort, alloc: Global, count: usize, toml: Text) -> Result<Text, Fail> {
    let mut calls = Numbers::new(alloc);
    calls.push(FIRST_FILE)?;
    let mut files: NamedTextList = Items::new(alloc);
    add_file(alloc, &mut files, b"vunit.toml", toml)?;
    for number in 0..count {
        add_numbered(alloc, &mut files, number, Text::new(alloc))?;
    }
    assert!(rt; have_paths(&files));
    let mut tree = MemTree::new(alloc, files, calls);
    read_of(alloc, &mut tree)
}

/// Whether reading a project file over `count` names has this result.
fn reads(
    rt: &impl Abort,
    alloc: Global,
    count: usize,
    toml: &str,
    wanted: &str,
) -> Result<bool, Fail> {
    let toml = expand_lines(alloc, toml.as_bytes())?;
    let wanted = expand_lines(alloc, wanted.as_bytes())?;
    let said = text_of_project(rt, alloc, count, toml)?;
    Ok(said.bytes() == wanted.bytes())
}

fn is_right(rt: &impl Abort, alloc: Global, row: &str) -> Result<bool, Fail> {
    match row.split_once('~') {
        Some((toml, wanted)) => reads(rt, alloc, 2048, toml, wanted),
        None => Ok(false),
    }
}

#[test]
fn more_files_than_may_be_are_told_after_faults(rt: HostRuntime) -> Result<(), Fail> {
    for row in ROWS.lines() {
        assert!(rt; is_right(&rt, rt.alloc(), row)?, "{row}");
    }
    Ok(())
}

#[test]
fn a_library_has_no_more_files_than_a_project(rt: HostRuntime) -> Result<(), Fail> {
    let over = "vunit_run: over limit: files 4096|";
    assert!(rt; reads(&rt, rt.alloc(), FILE_LIMIT, ALL, "failed")?);
    assert!(rt; reads(&rt, rt.alloc(), FILE_LIMIT + 1, ALL, over)?);
    Ok(())
}
