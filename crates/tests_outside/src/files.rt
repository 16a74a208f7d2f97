//! Requests with what the compiler answers to them, by hand.

use crate::requests::compile_request;
use base::{
    Built, BuiltFile, Entry, Exit, FileName, MaybeText, NoMemory, Positions, Text, TextList,
};
use child_tools::analyse;
use std::alloc::Global;
use std::test::Fail;

/// A row has the text of `a.vhd` of the library `lib`, the files that it is compiled over (each a library and an
/// artefact), the code and the output. `^` is a line feed.
static ROWS: &[u8] = b"\
package a is^end package a;^~~0~unit package a^
ENTITY E IS END;~~0~unit entity e^
entity \\A b\\ is end; use work.\\A b\\.all;~~0~unit entity \\A b\\^
entity e is end; architecture rtl of e is begin end;~~0~unit entity e^unit architecture rtl of e^
context c is library other; end;~~0~unit context c^
configuration k of e is for rtl end for; end;~lib=unit entity e^~0~unit configuration k^
package b is end; package body b is end;~~0~unit package b^unit body b^
package i is new work.b;~lib=unit package b^~0~unit instance i^
-- child: note 1^package p is end;^-- child: two^~~0~unit package p^script note 1^script two^
~~0~
-- nothing^~~0~
-- child: x~~0~script x^
--child: x^-- child:x^ -- child: ^~~0~script ^
-- child: refuse bad p^package p is end;~~1~bad p^
-- child: note^-- child: refuse one^-- child: refuse two^~~1~one^
-- child: refuse ^~~1~^
-- child: refuse~~0~script refuse^
-- child: refuse no^use work.x.all; package p is end;~~1~no^
-- child: refuse no^\"~~1~a.vhd: not VHDL^
\"abc~~1~a.vhd: not VHDL^
entity e is~~1~a.vhd: not VHDL^
foo~~1~a.vhd: not VHDL^
architecture a of e is begin u : entity work.m; end;~lib=unit entity e^~1~a.vhd: no unit lib.m^
architecture a of e is begin end;~~1~a.vhd: no unit lib.e^
package body p is end;~lib=unit package p^~0~unit body p^
use lib.p.all; package q is end;~~1~a.vhd: no unit lib.p^
use lib.p.all, lib.r.all; package q is end;~lib=unit package p^~1~a.vhd: no unit lib.r^
use o.q.all; package p is end;~o=unit package q^~0~unit package p^
use o.q.all; package p is end;~o=unit package r^unit package q^~0~unit package p^
use o.q.all; package p is end;~o=unit package r^unit package q~0~unit package p^
use o.q.all; package p is end;~o=unit package r^|o=unit package q^~0~unit package p^
use o.q.all; package p is end;~o=unit entity q^~0~unit package p^
use o.q.all; package p is end;~o=unit configuration q^~0~unit package p^
use o.q.all; package p is end;~o=unit instance q^~0~unit package p^
use o.q.all; package p is end;~o=unit context q^~0~unit package p^
use o.q.all; package p is end;~o=unit body q^~1~a.vhd: no unit o.q^
use o.q.all; package p is end;~o=unit architecture q of e^~1~a.vhd: no unit o.q^
use o.q.all; package p is end;~o=unit entity q of e^~1~a.vhd: no unit o.q^
use o.q.all; package p is end;~o=script unit package q^~1~a.vhd: no unit o.q^
use o.q.all; package p is end;~o=~1~a.vhd: no unit o.q^
use o.q.all; package p is end;~lib=unit package q^~0~unit package p^
use o.q.all; package p is end;~~0~unit package p^
package p is constant c : integer := o.q.c; end;~o=unit package r^~0~unit package p^
use o.p.all; package p is end;~o=^~1~a.vhd: no unit o.p^
use o.p.all; package p is end;~o=unit package P^~1~a.vhd: no unit o.p^
-- child: x^use work.p.all; package p is end;~~0~unit package p^script x^
-- child: unit entity e^use work.e.all; package p is end;~~1~a.vhd: no unit lib.e^";

fn file_name(alloc: Global, library: &[u8], path: &[u8]) -> Result<FileName, NoMemory> {
    Ok(FileName {
        library: Text::from_slice(alloc, library)?,
        path: Text::from_slice(alloc, path)?,
    })
}

/// Bytes with line feeds in the places of marks.
fn expand_lines(alloc: Global, bytes: &[u8]) -> Result<Text, NoMemory> {
    let mut lined = Vec::new(alloc);
    for byte in bytes {
        lined.push(if *byte == b'^' { b'\n' } else { *byte })?;
    }
    Ok(Text::from_vec(lined))
}

/// The parts before and after the first of a mark.
fn halves(bytes: &[u8], mark: u8) -> (&[u8], &[u8]) {
    match bytes.iter().position(|byte| *byte == mark) {
        Some(at) => (&bytes[..at], &bytes[at + 1..]),
        None => (bytes, &bytes[bytes.len()..]),
    }
}

/// The files of a row.
fn build_files(alloc: Global, files: &[u8]) -> Result<Built, Fail> {
    let mut built = Built::new(alloc);
    for file in files.split(|byte| *byte == b'|') {
        let (library, artefact) = halves(file, b'=');
        let name = file_name(alloc, library, b"b.vhd")?;
        let artefact = expand_lines(alloc, artefact)?;
        if name.is_within_limits() && artefact.bytes().len() <= 1000 && built.len() < 10 {
            built.push(BuiltFile { name, artefact })?;
        }
    }
    Ok(built)
}

/// The input of the compile request for a text over built files.
fn request_of(alloc: Global, text: Text, built: &Built) -> Result<Text, Fail> {
    let name = file_name(alloc, b"lib", b"a.vhd")?;
    let entry = Entry {
        name,
        command: TextList::new(alloc),
        text,
        deps: Positions::new(alloc),
    };
    if entry.name.is_within_limits() && entry.text.bytes().len() <= 1_000_000 {
        return Ok(compile_request(alloc, &entry, built)?.input);
    }
    Err(Fail::from("a text that fits"))
}

fn is_answer(exit: &Exit, code: u32, output: &[u8]) -> bool {
    match exit.results {
        MaybeText::Nothing => exit.code == code && exit.output.bytes() == output,
        MaybeText::Given(_) => false,
    }
}

fn passes(alloc: Global, row: &[u8]) -> Result<bool, Fail> {
    let (text, rest) = halves(row, b'~');
    let (files, rest) = halves(rest, b'~');
    let (code, output) = halves(rest, b'~');
    let input = request_of(
        alloc,
        expand_lines(alloc, text)?,
        &build_files(alloc, files)?,
    )?;
    let exit = analyse(alloc, input.bytes())?;
    let code = if code == b"0".as_slice() { 0 } else { 1 };
    Ok(is_answer(&exit, code, expand_lines(alloc, output)?.bytes()))
}

#[test]
fn files_are_answered(rt: HostRuntime) -> Result<(), Fail> {
    for row in ROWS.split(|byte| *byte == b'\n') {
        let passed = passes(rt.alloc(), row)?;
        assert!(rt; passed);
    }
    Ok(())
}

/// A text of one comment, whose script line has `count` bytes.
fn script_of(alloc: Global, count: usize) -> Result<Text, NoMemory> {
    let mut text = Vec::from_slice(alloc, b"-- child: ")?;
    for _ in 0..count {
        text.push(b'x')?;
    }
    Ok(Text::from_vec(text))
}

fn length_of_artefact(alloc: Global, count: usize) -> Result<Option<usize>, Fail> {
    let input = request_of(alloc, script_of(alloc, count)?, &Built::new(alloc))?;
    let exit = analyse(alloc, input.bytes())?;
    if is_answer(&exit, 1, b"artefact too long\n") {
        return Ok(None);
    }
    Ok(Some(exit.output.bytes().len()))
}

#[test]
fn an_artefact_has_its_limit(rt: HostRuntime) -> Result<(), Fail> {
    let longest = length_of_artefact(rt.alloc(), 262_136)?;
    assert!(rt; longest == Some(262_144));
    let longer = length_of_artefact(rt.alloc(), 262_137)?;
    assert!(rt; longer == None);
    Ok(())
}

/// The request of the file `a.vhd` of `lib` with the text `x` over no files, and one byte more.
static BYTES: [u8; 30] = *b"VRC1\x03\0\0\0lib\x05\0\0\0a.vhd\x01\0\0\0x\0\0\0\0\0";

fn answers(alloc: Global, input: &[u8], code: u32, output: &[u8]) -> Result<bool, Fail> {
    let exit = analyse(alloc, input)?;
    Ok(is_answer(&exit, code, output))
}

#[test]
fn other_bytes_are_no_request(rt: HostRuntime) -> Result<(), Fail> {
    for count in [0usize, 4, 28, 30] {
        let refused = answers(rt.alloc(), &BYTES[..count], 2, b"bad request\n")?;
        assert!(rt; refused);
    }
    let asked = answers(rt.alloc(), &BYTES[..29], 1, b"a.vhd: not VHDL\n")?;
    assert!(rt; asked);
    Ok(())
}
