//! Small trees, and the results of reading them, written out by hand.

use base::{
    FILE_LIMIT, GRAPH_TEXT_LIMIT, Graph, Items, NAME_LIMIT, NamedText, NamedTextList, Numbers,
    TEXT_LIMIT, Text, TextList,
};
use base_outcomes::Limit;
use memory_outside::{MemTree, have_paths};
use outside::Tree;
use project_reading::{Query, QueryKind, ReadProject, ReadStop, read_project};
use report::{limit_text, refusal_text, warning_text};
use std::alloc::Global;
use std::process::Abort;
use std::test::Fail;

/// One tree per line: its files, separated by `#`, each with a `%` after its path; and after a `~` the result. This is the
/// warnings and a word for each file of the graph, or the text of a refusal. A word has the first letter of the file and those
/// of the files that it depends on. A bar stands for the end of a line.
static ROWS: &[u8] = b"x%~vunit_run: no vunit.toml and no vunit.csv|
vunit.csv%lib,a.vhd|lib#a.vhd%~vunit_run: vunit.csv: bad line 2|
vunit.csv%lib,b.vhd|lib,a.vhd#a.vhd%package a is end;#b.vhd%use work.missing.all; package b is end;~b ab 
vunit.csv%lib,a.vhd|lib,b.vhd|lib,c.vhd#a.vhd%\"#c.vhd%~vunit_run: lib, b.vhd is absent|
vunit.csv%lib,a.vhd|lib,b.vhd#a.vhd%foo#b.vhd%\"abc~vunit_run: lib, a.vhd: no design unit at 0|
";

/// The same of trees with a TOML file.
static TOML_ROWS: &[u8] =
    b"vunit.toml%library=[{name=\"lib\",files=[\"c.vhd\",\"w.vhd\"]},{name=\"other\",files=[\"q.vhd\"]}]#c.vhd%context ctx is library other; use other.q.all; end context ctx;#w.vhd%context work.ctx; package w is constant k : integer := other.q.c; end;#q.vhd%package q is|end package q;|~q cq wqc 
vunit.toml%library=[{name=\"lib\",files=[\"e.vhd\",\"a.vhd\"]},{name=\"other\",files=[\"q.vhd\"]}]#e.vhd%library other; entity e is end;#a.vhd%architecture rtl of e is constant k : integer := other.q.c; begin end;#q.vhd%package q is|end package q;|~e q aeq 
vunit.toml%library=[{name=\"lib\",files=[\"*.vhd\"]}]#a.vhd%use work.c.all; package a is end;#b.vhd%use work.c.all; package b is end;#c.vhd%use work.d.all; package c is end;#d.vhd%use work.e.all; package d is end;#e.vhd%use work.c.all; package e is end;~vunit_run: cycle|  lib, c.vhd|  lib, d.vhd|  lib, e.vhd|
vunit.toml%library=[{name=\"lib\",files=[\"top.vhd\"]}]#top.vhd%entity top is end; architecture a of top is begin u : entity work.missing; end;~vunit_run: lib, top.vhd: no unit lib.missing|
vunit.toml%library=[{name=\"lib\",files=[\"p.vhd\"]}]#p.vhd%library rec; package p is constant k : integer := rec.field; end;~p 
vunit.toml%external=[\"unisim\"]|library=[{name=\"lib\",files=[\"p.vhd\"]}]#p.vhd%library unisim; use unisim.vcomponents.all; library ieee; use ieee.std_logic_1164.all; package p is end;~p 
vunit.toml%library=[{name=\"lib\",files=[\"p.vhd\"]}]#p.vhd%library unisim; use unisim.vcomponents.all; library ieee; use ieee.std_logic_1164.all; package p is end;~vunit_run: lib, p.vhd: no unit unisim.vcomponents|
vunit.toml%library=[{name=\"lib\",files=[\"*.vhd\",\"a.vhd\"]}]#b.vhd%package b is end;#a.vhd%package a is end;~a b 
vunit.toml%library=[{name=\"lib\",files=[\"z*.vhd\"]}]#a.vhd%~vunit_run: nothing matches z*.vhd|
vunit.toml%library=[{name=\"lib\",files=[\"a.vhd\"]}]#a.vhd%use work.all; package a is end;~vunit_run: warning: lib, a.vhd: use of lib.all gives no dependency|a 
vunit.toml%library=[{name=\"lib\",files=[\"*.vhd\"]}]#vunit.csv%bad#a.vhd%package p is end;#b.vhd%package p is end;~vunit_run: lib.p stands in lib, a.vhd and lib, b.vhd|
vunit.toml%library=[{name=\"lib\",files=[\"*.vhd\"]}]#a.vhd%entity e is end;#b.vhd%entity t is end; architecture a of t is begin u : entity work.e(rtl); end;~vunit_run: lib, b.vhd: no architecture rtl of lib.e|
";

fn is(bytes: &[u8], wanted: &[u8]) -> bool {
    bytes == wanted
}

/// The bytes with the ends of lines in place of bars.
pub(super) fn expand_lines(alloc: Global, bytes: &[u8]) -> Result<Text, Fail> {
    let mut out = Vec::new(alloc);
    for byte in bytes {
        if *byte == b'|' {
            out.push(b'\n')?;
        } else {
            out.push(*byte)?;
        }
    }
    Ok(Text::from_vec(out))
}

pub(super) fn add_file(
    alloc: Global,
    files: &mut NamedTextList,
    path: &[u8],
    bytes: Text,
) -> Result<(), Fail> {
    files.push(NamedText {
        path: Text::from_slice(alloc, path)?,
        bytes,
    })?;
    Ok(())
}

/// The files of a row.
pub(super) fn files_of(alloc: Global, row: &[u8]) -> Result<NamedTextList, Fail> {
    let mut files: NamedTextList = Items::new(alloc);
    for file in row.split(|b| *b == b'#') {
        let mut parts = file.split(|b| *b == b'%');
        let path = parts.next().unwrap_or(b"");
        let bytes = parts.next().unwrap_or(b"");
        add_file(alloc, &mut files, path, expand_lines(alloc, bytes)?)?;
    }
    Ok(files)
}

/// A word for each file.
fn put_graph(out: &mut Vec<u8>, graph: &Graph) -> Result<(), Fail> {
    for entry in graph.as_slice() {
        out.extend_from_slice(&entry.name.path.bytes()[..entry.name.path.bytes().len().min(1)])?;
        for dep in entry.deps.as_slice() {
            if (*dep as u64) < graph.len() {
                let path = graph.get(*dep as u64).name.path.bytes();
                out.extend_from_slice(&path[..path.len().min(1)])?;
            }
        }
        out.push(b' ')?;
    }
    Ok(())
}

fn shown_project(alloc: Global, read: &ReadProject) -> Result<Text, Fail> {
    let mut out = warning_text(alloc, &read.project, &read.warnings)?.into_vec();
    put_graph(&mut out, &read.graph)?;
    Ok(Text::from_vec(out))
}

pub(super) fn shown_stop(alloc: Global, stop: &ReadStop) -> Result<Text, Fail> {
    match stop {
        ReadStop::Refused(reason) => Ok(refusal_text(alloc, reason)?),
        ReadStop::Over(limit, number) => Ok(limit_text(alloc, *limit, *number)?),
        ReadStop::Failed => Ok(Text::from_slice(alloc, b"failed")?),
        ReadStop::NoMemory => Ok(Text::from_slice(alloc, b"no memory")?),
    }
}

/// The graph is wanted.
pub(super) fn the_graph(alloc: Global) -> Query {
    Query {
        query_kind: QueryKind::Graph,
        patterns: TextList::new(alloc),
    }
}

pub(super) fn shown_tree<T: Tree>(alloc: Global, tree: &mut T) -> Result<Text, Fail> {
    match read_project(alloc, tree, &the_graph(alloc)) {
        Ok(read) => shown_project(alloc, &read),
        Err(stop) => shown_stop(alloc, &stop),
    }
}

/// What is read of a tree of these files, one call of which is to fail.
fn text_of_project(
    rt: &impl Abort,
    alloc: Global,
    files: NamedTextList,
    failing: u64,
) -> Result<Text, Fail> {
    let mut calls = Numbers::new(alloc);
    calls.push(failing)?;
    assert!(rt; have_paths(&files));
    let mut tree = MemTree::new(alloc, files, calls);
    shown_tree(alloc, &mut tree)
}

/// A call that isn't made.
const NEVER: u64 = 9999;

/// Whether of a tree of these files this is read.
fn reads(
    rt: &impl Abort,
    alloc: Global,
    files: NamedTextList,
    wanted: &[u8],
) -> Result<bool, Fail> {
    let said = text_of_project(rt, alloc, files, NEVER)?;
    Ok(is(said.bytes(), wanted))
}

/// The two parts of a row.
fn halves(row: &[u8]) -> (&[u8], &[u8]) {
    let mut parts = row.split(|b| *b == b'~');
    (parts.next().unwrap_or(b""), parts.next().unwrap_or(b""))
}

pub(super) fn is_right(rt: &impl Abort, alloc: Global, row: &[u8]) -> Result<bool, Fail> {
    let (files, wanted) = halves(row);
    let wanted = expand_lines(alloc, wanted)?;
    reads(rt, alloc, files_of(alloc, files)?, wanted.bytes())
}

/// How many rows are right.
fn count_right(rt: &impl Abort, alloc: Global, rows: &[u8]) -> Result<u32, Fail> {
    let mut count = 0u32;
    for row in rows.split(|b| *b == b'\n') {
        if !row.is_empty() && is_right(rt, alloc, row)? {
            count = count.saturating_add(1);
        }
    }
    Ok(count)
}

#[test]
fn listed_projects_are_read(rt: HostRuntime) -> Result<(), Fail> {
    assert!(rt; count_right(&rt, rt.alloc(), ROWS)? == 5);
    Ok(())
}

#[test]
fn linked_projects_are_read(rt: HostRuntime) -> Result<(), Fail> {
    assert!(rt; count_right(&rt, rt.alloc(), TOML_ROWS)? == 12);
    Ok(())
}

/// A letter for each answer, with that of the quantity that is over its limit.
fn letter(stop: &ReadStop) -> u8 {
    match stop {
        ReadStop::Refused(_) => b'R',
        ReadStop::Over(Limit::Names, _) => b'N',
        ReadStop::Over(Limit::Files, _) => b'F',
        ReadStop::Over(Limit::TextBytes, _) => b'T',
        ReadStop::Over(Limit::TotalBytes, _) => b'A',
        ReadStop::Over(_, _) => b'?',
        ReadStop::Failed => b'f',
        ReadStop::NoMemory => b'm',
    }
}

fn letter_over(alloc: Global, tree: &mut MemTree) -> u8 {
    match read_project(alloc, tree, &the_graph(alloc)) {
        Ok(_read) => b'k',
        Err(stop) => letter(&stop),
    }
}

/// The letter of what is read of a tree of these files, one call of which is to fail.
fn letter_of(
    rt: &impl Abort,
    alloc: Global,
    files: NamedTextList,
    failing: u64,
) -> Result<u8, Fail> {
    let mut calls = Numbers::new(alloc);
    calls.push(failing)?;
    assert!(rt; have_paths(&files));
    let mut tree = MemTree::new(alloc, files, calls);
    Ok(letter_over(alloc, &mut tree))
}

/// A name of a letter and the digits of a number.
fn put_name(out: &mut Vec<u8>, number: usize) -> Result<(), Fail> {
    out.push(b'f')?;
    for unit in [10000, 1000, 100, 10, 1] {
        out.push(b'0' + (number / unit % 10) as u8)?;
    }
    Ok(())
}

/// Adds a file with such a name.
pub(super) fn add_numbered(
    alloc: Global,
    files: &mut NamedTextList,
    number: usize,
    bytes: Text,
) -> Result<(), Fail> {
    let mut path = Vec::new(alloc);
    put_name(&mut path, number)?;
    add_file(alloc, files, path.as_slice(), bytes)
}

/// A project file that lists `count` files.
fn listing(alloc: Global, count: usize) -> Result<Text, Fail> {
    let mut out = Vec::new(alloc);
    for number in 0..count {
        out.extend_from_slice(b"lib,")?;
        put_name(&mut out, number)?;
        out.push(b'\n')?;
    }
    Ok(Text::from_vec(out))
}

/// A text of `size` line feeds.
fn blank(alloc: Global, size: usize) -> Result<Text, Fail> {
    Ok(Text::from_vec(vec![in alloc; b'\n'; size]?))
}

fn alone(alloc: Global, path: &[u8], bytes: Text) -> Result<NamedTextList, Fail> {
    let mut files: NamedTextList = Items::new(alloc);
    add_file(alloc, &mut files, path, bytes)?;
    Ok(files)
}

/// A listed project whose files have `total` bytes together: each but the last has as many as the limit allows.
fn of_total(alloc: Global, total: usize) -> Result<NamedTextList, Fail> {
    let mut files: NamedTextList = Items::new(alloc);
    let mut left = total;
    let mut count = 0;
    for number in 0..32 {
        if left > 0 {
            let size = left.min(TEXT_LIMIT);
            add_numbered(alloc, &mut files, number, blank(alloc, size)?)?;
            left -= size;
            count = number + 1;
        }
    }
    add_file(alloc, &mut files, b"vunit.csv", listing(alloc, count)?)?;
    Ok(files)
}

/// A project in TOML without libraries, in a folder with `count` other names.
fn of_names(alloc: Global, count: usize) -> Result<NamedTextList, Fail> {
    let mut files = alone(
        alloc,
        b"vunit.toml",
        Text::from_slice(alloc, b"library = []")?,
    )?;
    for number in 0..count {
        add_numbered(alloc, &mut files, number, Text::new(alloc))?;
    }
    Ok(files)
}

/// The letter of the result of reading a project file that lists `count` files.
fn letter_of_listing(rt: &impl Abort, alloc: Global, count: usize) -> Result<u8, Fail> {
    let files = alone(alloc, b"vunit.csv", listing(alloc, count)?)?;
    letter_of(rt, alloc, files, NEVER)
}

#[test]
fn a_project_has_no_more_files_than_it_may(rt: HostRuntime) -> Result<(), Fail> {
    assert!(rt; letter_of_listing(&rt, rt.alloc(), FILE_LIMIT)? == b'R');
    assert!(rt; letter_of_listing(&rt, rt.alloc(), FILE_LIMIT + 1)? == b'F');
    Ok(())
}

/// The letter of the result of reading a project file of `size` line feeds, where one call of the tree fails.
fn letter_of_blank(
    rt: &impl Abort,
    alloc: Global,
    path: &[u8],
    size: usize,
    failing: u64,
) -> Result<u8, Fail> {
    let files = alone(alloc, path, blank(alloc, size)?)?;
    letter_of(rt, alloc, files, failing)
}

#[test]
fn a_project_file_is_no_longer_than_it_may(rt: HostRuntime) -> Result<(), Fail> {
    let alloc = rt.alloc();
    assert!(rt; letter_of_blank(&rt, alloc, b"vunit.csv", TEXT_LIMIT, NEVER)? == b'k');
    assert!(rt; letter_of_blank(&rt, alloc, b"vunit.csv", TEXT_LIMIT + 1, NEVER)? == b'T');
    assert!(rt; letter_of_blank(&rt, alloc, b"vunit.toml", TEXT_LIMIT + 1, 1)? == b'T');
    Ok(())
}

fn letter_of_total(rt: &impl Abort, alloc: Global, total: usize) -> Result<u8, Fail> {
    let files = of_total(alloc, total)?;
    letter_of(rt, alloc, files, NEVER)
}

#[test]
fn files_have_no_more_bytes_than_they_may(rt: HostRuntime) -> Result<(), Fail> {
    assert!(rt; letter_of_total(&rt, rt.alloc(), GRAPH_TEXT_LIMIT)? == b'k');
    assert!(rt; letter_of_total(&rt, rt.alloc(), GRAPH_TEXT_LIMIT + 1)? == b'A');
    Ok(())
}

fn letter_of_names(rt: &impl Abort, alloc: Global, count: usize) -> Result<u8, Fail> {
    let files = of_names(alloc, count)?;
    letter_of(rt, alloc, files, NEVER)
}

#[test]
fn a_folder_has_no_more_names_than_it_may(rt: HostRuntime) -> Result<(), Fail> {
    assert!(rt; letter_of_names(&rt, rt.alloc(), NAME_LIMIT - 1)? == b'k');
    assert!(rt; letter_of_names(&rt, rt.alloc(), NAME_LIMIT)? == b'N');
    Ok(())
}

/// Whether of a tree of a row, where each of its first four calls is to fail in turn, the fault of the tree is answered
/// three times.
fn tells_faults(rt: &impl Abort, alloc: Global, row: &[u8]) -> Result<bool, Fail> {
    for call in 0..4 {
        let wanted = if call < 3 { b'f' } else { b'k' };
        if letter_of(rt, alloc, files_of(alloc, row)?, call)? != wanted {
            return Ok(false);
        }
    }
    Ok(true)
}

static LISTED: &[u8] = b"vunit.csv%lib,a#a%";

static LINKED: &[u8] = b"vunit.toml%library=[{name=\"lib\",files=[\"a\"]}]#a%";

#[test]
fn faults_of_the_tree_are_told(rt: HostRuntime) -> Result<(), Fail> {
    assert!(rt; tells_faults(&rt, rt.alloc(), LISTED)?);
    assert!(rt; tells_faults(&rt, rt.alloc(), LINKED)?);
    Ok(())
}
