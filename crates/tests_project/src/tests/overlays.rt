//! Projects with unsaved texts in place of saved files, and the same projects after the texts are dropped.

use crate::tests::projects::{expand_lines, files_of, shown_tree};
use base::{NamedText, NamedTextList, Numbers, Text, TextList};
use memory_outside::{MemTree, have_paths};
use session_texts::{Overlay, Overlays, is_overlay_path};
use std::alloc::Global;
use std::process::Abort;
use std::test::Fail;

/// One case per line: saved files, unsaved files, the result over both, and the result after the unsaved texts are dropped. An
/// unsaved file whose path may not have a text is left out. Files and results are written as in `projects`.
static ROWS: &str =
    "vunit.toml%library=[{name='lib',files=['*.vhd']}]#a.vhd%package a is|end package a;|~b.vhd%package b is|end package b;|~a b ~a 
vunit.toml%library=[{name='lib',files=['*.vhd']}]#a.vhd%package a is|end package a;|~a.vhd%foo|~vunit_run: lib, a.vhd: no design unit at 0|~a 
vunit.toml%library=[{name='lib',files=['*.vhd']}]#a.vhd%package a is end;~.b.vhd%foo#vunit_out/b.vhd%foo#../b.vhd%foo#%foo~a ~a 
x%~vunit.toml%library=[{name='lib',files=['*.vhd']}]#a.vhd%package a is end;~a ~vunit_run: no vunit.toml and no vunit.csv|
vunit.csv%lib,a.vhd|#a.vhd%package a is end;~vunit.csv%lib,b.vhd|#b.vhd%package b is end;~b ~a 
vunit.toml%library=[{name='k',files=['a.vhd']},{name='lib',files=['a.vhd']}]#a.vhd%use work.c.all; package a is end;~a.vhd%package a is end;~a a ~vunit_run: k, a.vhd: no unit k.c|
";

/// Sets the unsaved text of a file, if its path may have one.
fn put_file(alloc: Global, texts: &mut Overlays, file: &NamedText) -> Result<(), Fail> {
    if is_overlay_path(file.path.bytes()) {
        texts.put(file.path.copy(alloc)?, file.bytes.copy(alloc)?)?;
    }
    Ok(())
}

fn put_files(alloc: Global, texts: &mut Overlays, files: &[NamedText]) -> Result<(), Fail> {
    for file in files {
        put_file(alloc, texts, file)?;
    }
    Ok(())
}

fn drop_files(texts: &mut Overlays, files: &[NamedText]) {
    for file in files {
        texts.drop_path(file.path.bytes());
    }
}

/// What is read of a tree with unsaved texts.
fn read_over(alloc: Global, tree: &mut MemTree, texts: &Overlays) -> Result<Text, Fail> {
    let mut asked = TextList::new(alloc);
    let mut overlay = Overlay {
        base: tree,
        texts,
        asked: &mut asked,
    };
    shown_tree(alloc, &mut overlay)
}

/// What is read of a tree with these unsaved files, and after a `~` what is read once they are dropped.
fn read_twice(alloc: Global, tree: &mut MemTree, files: &[NamedText]) -> Result<Text, Fail> {
    let mut texts = Overlays::new(alloc);
    put_files(alloc, &mut texts, files)?;
    let mut out = read_over(alloc, tree, &texts)?.into_vec();
    drop_files(&mut texts, files);
    out.push(b'~')?;
    out.extend_from_slice(read_over(alloc, tree, &texts)?.bytes())?;
    Ok(Text::from_vec(out))
}

fn text_of_files(
    rt: &impl Abort,
    alloc: Global,
    saved: NamedTextList,
    files: &[NamedText],
) -> Result<Text, Fail> {
    assert!(rt; have_paths(&saved));
    let mut tree = MemTree::new(alloc, saved, Numbers::new(alloc));
    read_twice(alloc, &mut tree, files)
}

/// Whether saved and unsaved files give these results.
fn reads(
    rt: &impl Abort,
    alloc: Global,
    saved: &str,
    files: &str,
    wanted: &str,
) -> Result<bool, Fail> {
    let wanted = expand_lines(alloc, wanted.as_bytes())?;
    let files = files_of(alloc, files.as_bytes())?;
    let saved = files_of(alloc, saved.as_bytes())?;
    let text = text_of_files(rt, alloc, saved, files.as_slice())?;
    Ok(text.bytes() == wanted.bytes())
}

fn is_right(rt: &impl Abort, alloc: Global, row: &str) -> Result<bool, Fail> {
    let Some((saved, rest)) = row.split_once('~') else {
        return Ok(false);
    };
    match rest.split_once('~') {
        Some((files, wanted)) => reads(rt, alloc, saved, files, wanted),
        None => Ok(false),
    }
}

#[test]
fn unsaved_texts_count_until_they_are_dropped(rt: HostRuntime) -> Result<(), Fail> {
    for row in ROWS.lines() {
        assert!(rt; is_right(&rt, rt.alloc(), row)?, "{row}");
    }
    Ok(())
}
