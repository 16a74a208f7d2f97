//! Small projects, with the libraries that their units see, written out by hand.

ghost use Rattle.std.specs.Prelude.{◌≡◌, ◌<◌, ◌≤◌, length};
ghost use Rattle.vhdl_outline.specs.Outlines.{AreOutlined};

use crate::tests::projects::{add, are_small, files_of, outlines_of, project_with};
use base::{Items, Project, Text, TextList, UnitId};
use std::alloc::Global;
use std::process::Abort;
use std::test::Fail;
use vhdl_outline::Outlines;
use vhdl_scope::{VisibleLibraries, visible_sets};

/// The project of files that are parted by `#`; and the texts.
fn project_of(alloc: Global, files: &[u8]) -> Result<(Project, TextList), Fail> {
    let (list, texts) = files_of(alloc, files)?;
    Ok((project_with(alloc, list), texts))
}

/// The libraries that the rows name, and some that no row names, in ascending byte order.
static LIBRARIES: &[&str] = &[
    "\\X\\", "a", "b", "c", "d", "e", "f", "g", "h", "i", "j", "k", "l", "lib", "m", "n", "other",
    "q", "std", "work", "x",
];

/// Adds those of the libraries that a unit sees, each with a comma, and a bar.
fn push_seen(sets: &VisibleLibraries, unit: UnitId, out: &mut Vec<u8>) -> Result<(), Fail>
    requires { unit.file < length sets.now.starts }
{
    for library in LIBRARIES {
        if sets.sees_library(unit, library.as_bytes()) {
            out.extend_from_slice(library.as_bytes())?;
            out.push(b',')?;
        }
    }
    out.push(b'|')?;
    Ok(())
}

/// The libraries of each unit, with a bar after each.
fn shown_of(
    alloc: Global,
    sets: &VisibleLibraries,
    files: u32,
    outlines: &Outlines,
) -> Result<Vec<u8>, Fail>
    requires { files ≤ length sets.now.starts }
{
    let mut out = Vec::new(alloc);
    for file in 0..files {
        if (file as u64) < outlines.files.len() {
            for unit in 0..8u32 {
                if (unit as u64) < outlines.files.get(file as u64).units.len() {
                    push_seen(sets, UnitId { file, unit }, &mut out)?;
                }
            }
        }
    }
    Ok(out)
}

fn shown_project(alloc: Global, project: &Project, texts: &TextList) -> Result<Vec<u8>, Fail> {
    if !are_small(texts) || texts.len() != project.files.len() || texts.len() > 8 {
        return Err(Fail::from("few small files"));
    }
    let outlines = outlines_of(alloc, texts)?;
    shown_sets(alloc, project, texts, &outlines)
}

fn shown_sets(
    alloc: Global,
    project: &Project,
    texts: &TextList,
    outlines: &Outlines,
) -> Result<Vec<u8>, Fail>
    requires few { length texts.now ≤ 8 }
    requires each { length texts.now ≡ length project.now.files }
    requires outlined { AreOutlined texts.now outlines.now }
{
    let count = texts.len() as u32;
    let sets = visible_sets(alloc, project, texts, outlines)?;
    shown_of(alloc, &sets, count, outlines)
}

fn text_of_libraries(alloc: Global, files: &[u8]) -> Result<Vec<u8>, Fail> {
    let (project, texts) = project_of(alloc, files)?;
    shown_project(alloc, &project, &texts)
}

/// A line each: a project, and for each unit the libraries that it sees.
static PROJECTS: &str = r#"
-- a context hands on what it names, but not `work` and `std`
lib%%context ctx is library other; use other.q.all; end context ctx;#lib%%context work.ctx; package w is constant k : integer := other.q.c; end;#other%%package q is end; => other,std,work,|other,std,work,|std,work,|
-- an architecture sees what its entity sees
lib%%library other; entity e is end;#lib%%architecture rtl of e is constant k : integer := other.q.c; begin end;#other%%package q is end; => other,std,work,|other,std,work,|std,work,|
lib%%entity top is end; architecture a of top is begin u : entity work.missing; end; => std,work,|std,work,|
-- contexts that refer to each other
l%%library a; context work.d; context c is library b; end;#l%%context work.c; context d is library e; end;#l%%context work.c; package p is end; => a,b,e,std,work,|a,b,e,std,work,|a,b,e,std,work,|
-- a context that refers to itself, and one to a unit that isn't there
l%%context c is library a; context work.c; end;#l%%context work.x; package p is end; => a,std,work,|std,work,|
-- the library of a context reference has to be visible
l%%context m.c; package p is end;#m%%context c is library a; end;#l%%library m; context m.c; package q is end; => std,work,|a,std,work,|a,m,std,work,|
-- and may become so by another one
l%%context m.c, work.n; package p is end;#l%%context n is library m; end;#m%%context c is library a; end; => a,m,std,work,|m,std,work,|a,std,work,|
-- several primary units of one name, a package body, and one without a package
l%%library a; entity e is end;#l%%library b; package e is end;#l%%library c; package body e is end; package body q is end;#m%%library d; entity e is end; => a,std,work,|b,std,work,|a,b,c,std,work,|std,work,|d,std,work,|
-- a package named as a context hands nothing on, and a secondary unit is no primary unit
l%%library a; package c is end;#l%%context work.c; package p is end;#l%%library b; package body p is end; architecture z of p is begin end; => a,std,work,|std,work,|b,std,work,|std,work,|
-- a configuration sees what its entity sees, and the architecture that its first `for` names
l%%library a; entity e is end;#l%%library b; architecture r of e is begin end; library d; architecture s of e is begin end;#l%%configuration c of e is for r end for; end; => a,std,work,|a,b,std,work,|a,d,std,work,|a,b,std,work,|
-- not that of a later one, nor one that isn't there, nor one of another entity or library
l%%library a; entity e is end; library b; architecture r of e is begin end;#l%%library d; architecture r of f is begin end;#l%%library g; configuration c of e is for q for r end for; end for; end;#m%%configuration c of e is for r end for; end; => a,std,work,|a,b,std,work,|d,std,work,|a,g,std,work,|std,work,|
-- by contexts of both, and no unit sees what the configuration names
l%%context k is library a; end;#l%%context work.k; entity e is end;#l%%context n is library b; end; context work.n; architecture r of e is begin end;#l%%library d; configuration c of e is for r end for; end; => a,std,work,|a,std,work,|b,std,work,|a,b,std,work,|a,b,d,std,work,|
-- more names than are looked through one after the other
l%%library j, c, h, a, e; package p is end;#l%%library g, b, i, d, f, a, J; package q is end; => a,c,e,h,j,std,work,|a,b,d,f,g,i,j,std,work,|
-- words in other case, names that are no words, and names that repeat
l%%library B, a, \X\, a; context C is end;#l%%CONTEXT WORK.c; package p is end; => \X\,a,b,std,work,|\X\,a,b,std,work,|
"#;

/// Whether the units of a line see what stands there. A line without an arrow is empty or a remark.
fn check(alloc: Global, line: &str) -> Result<bool, Fail> {
    match line.split_once(" => ") {
        Some((files, wanted)) => {
            Ok(text_of_libraries(alloc, files.as_bytes())?.as_slice() == wanted.as_bytes())
        }
        None => Ok(line.is_empty() || line.starts_with("--")),
    }
}

#[test]
fn projects(rt: HostRuntime) -> Result<(), Fail> {
    for line in PROJECTS.lines() {
        assert!(rt; check(rt.alloc(), line)?, "{line}");
    }
    Ok(())
}

/// A ring of `count` contexts: each has a library of its own and refers to the context `step` positions after it.
fn ring_of(alloc: Global, count: u32, step: u32) -> Result<(Project, TextList), Fail>
    requires { 0 < count }
{
    let mut list = Items::new(alloc);
    let mut texts = TextList::new(alloc);
    for i in 0..count {
        let next = (u64::from(i) + u64::from(step)) % u64::from(count);
        let text = format!(in alloc; "context c{i} is library l{i}; context work.c{next}; end;")?;
        let text = Text::from_slice(alloc, text.as_bytes())?;
        add(alloc, &mut list, &mut texts, b"lib", b"", text)?;
    }
    Ok((project_with(alloc, list), texts))
}

/// Context `i` of `count`: it has a library of its own and refers to all contexts.
fn knot(alloc: Global, count: u32, i: u32) -> Result<Text, Fail> {
    let mut text = Vec::new(alloc);
    let begin = format!(in alloc; "context c{i} is library l{i}, lib; context lib.c0")?;
    text.extend_from_slice(begin.as_bytes())?;
    for j in 1..count {
        let part = format!(in alloc; ",lib.c{j}")?;
        text.extend_from_slice(part.as_bytes())?;
    }
    text.extend_from_slice(b"; end;")?;
    Ok(Text::from_vec(text))
}

/// A project of `count` contexts that each refer to all.
fn net_of(alloc: Global, count: u32) -> Result<(Project, TextList), Fail> {
    let mut list = Items::new(alloc);
    let mut texts = TextList::new(alloc);
    for i in 0..count {
        let text = knot(alloc, count, i)?;
        add(alloc, &mut list, &mut texts, b"lib", b"", text)?;
    }
    Ok((project_with(alloc, list), texts))
}

/// A ring, or contexts that each refer to all, where the step is 0.
fn hostile_of(alloc: Global, count: u32, step: u32) -> Result<(Project, TextList), Fail> {
    if count == 0 || step == 0 {
        net_of(alloc, count)
    } else {
        ring_of(alloc, count, step)
    }
}

/// How many of `l0`, `l1` .. and of the libraries of the files, of `std` and of `work` the first unit of the first file sees.
fn count_seen(alloc: Global, sets: &VisibleLibraries, count: u32) -> Result<u64, Fail>
    requires { 0 < length sets.now.starts }
{
    let first = UnitId { file: 0, unit: 0 };
    let mut seen: u64 = 0;
    for i in 0..count {
        let name = format!(in alloc; "l{i}")?;
        if sets.sees_library(first, name.as_bytes()) {
            seen = seen.saturating_add(1);
        }
    }
    for name in ["lib", "std", "work"] {
        if sets.sees_library(first, name.as_bytes()) {
            seen = seen.saturating_add(1);
        }
    }
    Ok(seen)
}

/// The same for a project of `count` files.
fn first_sees(alloc: Global, project: &Project, texts: &TextList, count: u32) -> Result<u64, Fail> {
    if !are_small(texts) || texts.len() != project.files.len() || project.files.is_empty() {
        return Err(Fail::from("small files"));
    }
    let outlines = outlines_of(alloc, texts)?;
    let sets = visible_sets(alloc, project, texts, &outlines)?;
    count_seen(alloc, &sets, count)
}

/// The number of contexts, the step, and how many libraries the first context sees. With step 0 each context refers to
/// all; with another step the contexts are a ring, and each refers to the context that many positions after it.
static HOSTILE: &[(u32, u32, u64)] = &[
    // each context's own library, `work` and `std`
    (64, 1, 66),
    (64, 63, 66),
    (64, 27, 66),
    // and the library of the files
    (40, 0, 43),
];

/// How many libraries the first of `count` contexts sees with this step.
fn seen_of(alloc: Global, count: u32, step: u32) -> Result<u64, Fail> {
    let (project, texts) = hostile_of(alloc, count, step)?;
    first_sees(alloc, &project, &texts, count)
}

#[test]
fn hostile(rt: HostRuntime) -> Result<(), Fail> {
    for (count, step, wanted) in HOSTILE {
        assert!(rt;
            seen_of(rt.alloc(), *count, *step)? == *wanted,
            "{count}, {step}"
        );
    }
    Ok(())
}
