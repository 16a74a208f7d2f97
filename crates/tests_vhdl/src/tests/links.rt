//! Small projects, with the dependencies of their files or the fault, written out by hand.

ghost use Rattle.std.specs.Prelude.{◌≡◌, ◌≤◌, length};
ghost use Rattle.std.specs.List.{All};
ghost use Rattle.vhdl_outline.specs.Outlines.{AreOutlined};
ghost use Rattle.vhdl_outline.specs.Roles.{IsTextSmall};

use crate::tests::projects::{are_small, files_of, outlines_of};
use base::{
    FILE_LIMIT, Items, LinkFault, Linked, Pair, PairList, Project, ProjectFileList, Text, TextList,
};
use std::alloc::Global;
use std::process::Abort;
use std::test::Fail;
use vhdl_graph::link;
use vhdl_outline::Outlines;
use vhdl_scope::visible_sets;

/// The library `unisim`, where it is outside.
fn external_of(alloc: Global, options: &[u8]) -> Result<TextList, Fail> {
    let mut external = TextList::new(alloc);
    if options.contains(&b'x') {
        external.push(Text::from_slice(alloc, b"unisim")?)?;
    }
    Ok(external)
}

/// The pairs of the first file with itself, with the third, and with a file that isn't there.
fn pairs_of(alloc: Global, options: &[u8]) -> Result<PairList, Fail> {
    let mut pairs = PairList::new(alloc);
    if options.contains(&b'd') {
        pairs.push(Pair { user: 0, used: 0 })?;
        pairs.push(Pair { user: 0, used: 2 })?;
        pairs.push(Pair {
            user: 0,
            used: 5000,
        })?;
    }
    Ok(pairs)
}

/// The project of files, with what the options say.
fn project_of(alloc: Global, files: ProjectFileList, options: &[u8]) -> Result<Project, Fail> {
    let external = external_of(alloc, options)?;
    let depends = pairs_of(alloc, options)?;
    Ok(Project {
        files,
        simulator: Items::new(alloc),
        external,
        bodies: options.contains(&b'b'),
        depends,
        listed: false,
    })
}

/// The positions of each file, one digit each, with a bar after each; and the warnings.
fn shown_links(alloc: Global, linked: &Linked) -> Result<Vec<u8>, Fail> {
    let mut out = Vec::new(alloc);
    for deps in linked.edges.as_slice() {
        for dep in deps.as_slice() {
            out.push(b'0' + (*dep % 10) as u8)?;
        }
        out.push(b'|')?;
    }
    for warning in linked.warnings.as_slice() {
        out.push(b'0' + (warning.file % 10) as u8)?;
        out.extend_from_slice(warning.library.bytes())?;
        out.push(b' ')?;
    }
    Ok(out)
}

/// A letter, and texts with a blank after each.
fn shown_texts(alloc: Global, letter: u8, texts: &[&Text]) -> Result<Vec<u8>, Fail> {
    let mut out = Vec::new(alloc);
    out.push(letter)?;
    for text in texts {
        out.push(b' ')?;
        out.extend_from_slice(text.bytes())?;
    }
    Ok(out)
}

fn shown_fault(alloc: Global, fault: &LinkFault) -> Result<Vec<u8>, Fail> {
    match fault {
        LinkFault::NoMemory => shown_texts(alloc, b'N', &[]),
        LinkFault::DuplicateUnit {
            unit,
            first,
            second,
        } => shown_texts(alloc, b'D', &[unit, &first.path, &second.path]),
        LinkFault::MissingUnit {
            file,
            library,
            unit,
        } => shown_texts(alloc, b'U', &[&file.path, library, unit]),
        LinkFault::MissingArchitecture {
            file,
            library,
            entity,
            architecture,
        } => shown_texts(alloc, b'A', &[&file.path, library, entity, architecture]),
    }
}

fn shown_answer(
    alloc: Global,
    project: &Project,
    texts: &TextList,
    outlines: &Outlines,
) -> Result<Vec<u8>, Fail>
    requires few { length project.now.files ≤ FILE_LIMIT }
    requires each { length texts.now ≡ length project.now.files }
    requires outlined { AreOutlined texts.now outlines.now }
    requires small { All IsTextSmall texts.now }
{
    let sets = visible_sets(alloc, project, texts, outlines)?;
    match link(alloc, project, texts, outlines, &sets) {
        Ok(linked) => shown_links(alloc, &linked),
        Err(fault) => shown_fault(alloc, &fault),
    }
}

/// The answer of a project and its texts, which are few and small.
fn shown_project(alloc: Global, project: &Project, texts: &TextList) -> Result<Vec<u8>, Fail> {
    if !are_small(texts) || texts.len() != project.files.len() || texts.len() > 8 {
        return Err(Fail::from("few small files"));
    }
    let outlines = outlines_of(alloc, texts)?;
    shown_answer(alloc, project, texts, &outlines)
}

fn text_of_links(alloc: Global, options: &[u8], files: &[u8]) -> Result<Vec<u8>, Fail> {
    let (list, texts) = files_of(alloc, files)?;
    let project = project_of(alloc, list, options)?;
    shown_project(alloc, &project, &texts)
}

/// A line each: options (`x` for an external library, `b` for bodies, `d` for pairs of the project), files, and the answer.
static PROJECTS: &str = r#"
-- by a context, and by a name in an expression
- lib%c%context ctx is library other; use other.q.all; end context ctx;#lib%w%context work.ctx; package w is constant k : integer := other.q.c; end;#other%q%package q is end; => 2|02||
-- an architecture on its entity, by whose library clause it sees another library
- lib%e%library other; entity e is end;#lib%a%architecture rtl of e is constant k : integer := other.q.c; begin end;#other%q%package q is end; => |02||
-- a configuration on what its entity and its architecture may name
- tb%top%library oth; use oth.y; entity top is end; architecture a of top is component x is end component; begin u : x; end;#tb%c%configuration c of top is for a for u : x use entity oth.x(r); end for; end for; end;#oth%x%entity x is end; architecture r of x is begin end;#oth%y%package y is end; => 3|02|||
- tb%top%entity top is end;#tb%a%library oth; architecture a of top is component x is end component; begin u : x; end;#tb%b%architecture b of top is begin end;#tb%c%configuration c of top is for a for u : x use entity oth.x; end for; end for; end;#tb%d%configuration d of top is for b for u : x use entity oth.x; end for; end for; end;#oth%x%entity x is end; => |0|0|015|02||
- lib%top%entity top is end; architecture a of top is begin u : entity work.missing; end; => U top lib missing
-- a loose reference to what isn't there
- lib%a%library rec; package a is constant k : integer := rec.field; end;#rec%b%package b is end; => ||
-- external libraries, by the project and always
x l%a%library unisim, ieee; use unisim.vcomponents.all; use ieee.std_logic_1164.all; package a is end; => |
- l%a%library unisim, ieee; use ieee.std_logic_1164.all; use unisim.vcomponents.all; package a is end; => U a unisim vcomponents
-- a library that is said to be outside, but has files
x l%a%library unisim; use unisim.vcomponents.all; package a is end;#unisim%b%package c is end; => U a unisim vcomponents
-- bodies
- l%u%use work.p.all; package u is end;#l%p%package p is end;#l%b%package body p is end; => 1||1|
b l%u%use work.p.all; package u is end;#l%p%package p is end;#l%b%package body p is end; => 12||1|
- l%u%use work.p.all; package u is end;#l%b%package body p is end; => U u l p
-- architectures
- l%u%entity t is end; architecture a of t is begin i : entity work.e(r); end;#l%e%entity e is end;#l%r%architecture r of e is begin end;#l%s%architecture s of e is begin end; => 12||1|1|
- l%u%entity t is end; architecture a of t is begin i : entity work.e(q); end;#l%e%entity e is end;#l%r%architecture r of e is begin end; => A u l e q
-- the architecture of a block configuration, in a configuration declaration alone, and where the name is no label
- l%c%configuration c of e is for a for u : s use entity work.s; for r end for; end for; end for; end;#l%e%entity e is end; architecture a of e is begin end;#l%s%entity s is end;#l%r%architecture r of s is begin end;#l%q%architecture q of s is begin end; => 123|||2|2|
- l%c%configuration c of e is for a for u : s use entity work.s; for q end for; end for; end for; end;#l%e%entity e is end; architecture a of e is begin end;#l%s%entity s is end;#l%r%architecture r of s is begin end; => A c l s q
- l%c%configuration c of e is for a for u : s use entity work.s; for r : t use open; end for; end for; end for; end;#l%e%entity e is end; architecture a of e is begin end;#l%s%entity s is end;#l%r%architecture r of s is begin end; => 12|||2|
- l%c%configuration c of e is for a for u : s use entity work.s; for r, t : t use open; end for; end for; end for; end;#l%e%entity e is end; architecture a of e is begin end;#l%s%entity s is end;#l%r%architecture r of s is begin end; => 12|||2|
- l%c%architecture c of e is for u : s use entity work.s; for r end for; begin end;#l%e%entity e is end;#l%s%entity s is end;#l%r%architecture r of s is begin end; => 12|||2|
- l%c%library m; configuration c of e is for a for u : s use entity m.s; for r for v : t use entity m.t; for q end for; end for; end for; end for; end for; end;#l%e%entity e is end; architecture a of e is begin end;#m%s%entity s is end; architecture r of s is begin end;#m%t%entity t is end;#m%q%architecture q of t is begin end; => 1234||||3|
-- the project's own pairs
d l%a%#l%b%package b is end;#l%c% => 2|||
-- duplicates come before what is missing
- l%a%use work.x.all; package p is end;#l%b%entity p is end;#l%c%package p is end; => D l.p a b
- l%a%entity e is end;#l%b%architecture r of e is begin end;#l%c%architecture r of e is begin end;#m%d%entity e is end; => D l.e(r) b c
- l%a%package p is end; package body p is end;#l%b%package body p is end; => D body l.p a b
-- uses of whole libraries, in text order
- l%a%library m, n; use m.all; use work.all; use n.all; package a is end;#m%b%package b is end; => ||0m 0l 
- l%a%library m, n; use m.all, work.all, n.all; use m.b, m.all; package a is end;#m%b%package b is end; => 1||0m 0l 0m 
"#;

/// Whether the answer of a line is what is found.
fn is_right(alloc: Global, options: &str, files: &str, wanted: &str) -> Result<bool, Fail> {
    let found = text_of_links(alloc, options.as_bytes(), files.as_bytes())?;
    Ok(found.as_slice() == wanted.as_bytes())
}

/// The same of a line. One without an arrow is a remark, or empty.
fn check(alloc: Global, line: &str) -> Result<bool, Fail> {
    let Some((project, wanted)) = line.split_once(" => ") else {
        return Ok(line.is_empty() || line.starts_with("--"));
    };
    match project.split_once(' ') {
        Some((options, files)) => is_right(alloc, options, files, wanted),
        None => Ok(false),
    }
}

#[test]
fn projects(rt: HostRuntime) -> Result<(), Fail> {
    for line in PROJECTS.lines() {
        assert!(rt; check(rt.alloc(), line)?, "{line}");
    }
    Ok(())
}
