//! Requests with what the simulator answers to them, by hand.

use base::{Exit, MaybeText, NoMemory};
use child_tools::bench;
use std::alloc::Global;
use std::test::Fail;

/// A row has the cases of the bench `t` of the library `lib`, the files that were built (each a library and an artefact),
/// the code, the output and the results. `^` is a line feed.
static ROWS: &[u8] = b"\
a|b~lib=unit entity t^~0~~test_start:a^test_start:b^test_suite_done^
a|b~lib=unit entity t^script fail lib.t.b^~1~failed lib.t.b^~test_start:a^test_start:b^
a|b~lib=unit entity t^script fail lib.t.a^~1~failed lib.t.a^~test_start:a^
a|b~lib=unit entity t^script fail lib.t.b^script fail lib.t.a^~1~failed lib.t.a^~test_start:a^
a|b~lib=unit entity t^|other=script fail lib.t.a~1~failed lib.t.a^~test_start:a^
b|a~other=script fail lib.t.a^|lib=unit entity t~1~failed lib.t.a^~test_start:b^test_start:a^
a~lib=unit entity t^script fail lib.t.a~1~failed lib.t.a^~test_start:a^
a|a~lib=unit entity t^script fail lib.t.a^~1~failed lib.t.a^~test_start:a^
a|a~lib=^|lib=unit entity t~0~~test_start:a^test_start:a^test_suite_done^
u.v~lib=unit entity t^script fail lib.t.u^~0~~test_start:u.v^test_suite_done^
u.v~lib=unit entity t^script fail lib.t.u.v^~1~failed lib.t.u.v^~test_start:u.v^
x^y~lib=unit entity t^script fail lib.t.x^y^~0~~test_start:x^y^test_suite_done^
all~lib=unit entity t^script fail lib.t.all^~1~failed lib.t.all^~test_start:all^
b~lib=unit entity t^script fail lib.t.all^~0~~test_start:b^test_suite_done^
a~lib=unit entity t^script fail lib.t.b^script note^~0~~test_start:a^test_suite_done^
a~lib=unit entity t^script fail other.t.a^~0~~test_start:a^test_suite_done^
a~lib=unit entity t^script fail lib.t.a ^~0~~test_start:a^test_suite_done^
a~lib=unit entity t^script fail  lib.t.a^~0~~test_start:a^test_suite_done^
a~lib=unit entity t^script fail lib.t.A^script fail lib.t^~0~~test_start:a^test_suite_done^
a~lib=unit entity t^script note fail lib.t.a^ script fail lib.t.a^~0~~test_start:a^test_suite_done^
a~lib=unit entity t^script fail lib.t.^script fail ^script fail^~0~~test_start:a^test_suite_done^
~lib=unit entity t^~0~~test_suite_done^
~lib=unit entity t^script fail lib.t.all^~1~failed lib.t.all^~
~lib=unit entity t^script fail lib.t^script fail lib.t.^~0~~test_suite_done^
a~~1~no bench^~
~lib=^~1~no bench^~
a~lib=unit entity t2^~1~no bench^~
a~lib=unit entity T^unit entity t ^~1~no bench^~
a~other=unit entity t^|lib=script fail lib.t.a^~1~no bench^~
a~lib=unit architecture t of e^unit configuration t^~1~no bench^~
a~lib=script unit entity t^unit entity ^unit entity^~1~no bench^~";

/// The parts before and after the first of a mark.
fn halves(bytes: &[u8], mark: u8) -> (&[u8], &[u8]) {
    match bytes.iter().position(|byte| *byte == mark) {
        Some(at) => (&bytes[..at], &bytes[at + 1..]),
        None => (bytes, &bytes[bytes.len()..]),
    }
}

/// Bytes with line feeds in the places of marks.
fn lined(alloc: Global, bytes: &[u8]) -> Result<Vec<u8>, NoMemory> {
    let mut lined = Vec::new(alloc);
    for byte in bytes {
        lined.push(if *byte == b'^' { b'\n' } else { *byte })?;
    }
    Ok(lined)
}

/// Puts a number below 65,536.
fn put_number(out: &mut Vec<u8>, number: usize) -> Result<(), NoMemory> {
    out.push((number % 256) as u8)?;
    out.push((number / 256 % 256) as u8)?;
    out.extend_from_slice(b"\0\0")?;
    Ok(())
}

fn put_text(out: &mut Vec<u8>, bytes: &[u8]) -> Result<(), NoMemory> {
    put_number(out, bytes.len())?;
    out.extend_from_slice(bytes)?;
    Ok(())
}

/// How many parts the bytes have between bars; 0 for no bytes.
fn count_of(bytes: &[u8]) -> usize {
    if bytes.is_empty() {
        return 0;
    }
    bytes.split(|byte| *byte == b'|').count()
}

fn put_cases(alloc: Global, out: &mut Vec<u8>, names: &[u8]) -> Result<(), NoMemory> {
    put_number(out, count_of(names))?;
    if names.is_empty() {
        return Ok(());
    }
    for name in names.split(|byte| *byte == b'|') {
        let name = lined(alloc, name)?;
        put_text(out, name.as_slice())?;
    }
    Ok(())
}

fn put_files(alloc: Global, out: &mut Vec<u8>, files: &[u8]) -> Result<(), NoMemory> {
    put_number(out, count_of(files))?;
    if files.is_empty() {
        return Ok(());
    }
    for file in files.split(|byte| *byte == b'|') {
        let (library, artefact) = halves(file, b'=');
        put_text(out, library)?;
        put_text(out, b"b.vhd")?;
        let artefact = lined(alloc, artefact)?;
        put_text(out, artefact.as_slice())?;
    }
    Ok(())
}

/// The request of a row, with an empty configuration and an empty results path.
fn request(alloc: Global, names: &[u8], files: &[u8]) -> Result<Vec<u8>, NoMemory> {
    let mut out = Vec::from_slice(alloc, b"VRB1\x03\0\0\0lib\x01\0\0\0t\x01\0\0\0a")?;
    put_cases(alloc, &mut out, names)?;
    out.extend_from_slice(b"\0\0\0\0\0\0\0\0")?;
    put_files(alloc, &mut out, files)?;
    Ok(out)
}

fn is_answer(exit: &Exit, code: u32, output: &[u8], results: &[u8]) -> bool {
    match &exit.results {
        MaybeText::Given(text) => {
            exit.code == code && exit.output.bytes() == output && text.bytes() == results
        }
        MaybeText::Nothing => false,
    }
}

fn passes(alloc: Global, row: &[u8]) -> Result<bool, NoMemory> {
    let (names, rest) = halves(row, b'~');
    let (files, rest) = halves(rest, b'~');
    let (code, rest) = halves(rest, b'~');
    let (output, results) = halves(rest, b'~');
    let input = request(alloc, names, files)?;
    let output = lined(alloc, output)?;
    let results = lined(alloc, results)?;
    let exit = bench(alloc, input.as_slice())?;
    let code = if code == b"0".as_slice() { 0 } else { 1 };
    Ok(is_answer(&exit, code, output.as_slice(), results.as_slice()))
}

#[test]
fn benches_are_answered(rt: HostRuntime) -> Result<(), Fail> {
    for row in ROWS.split(|byte| *byte == b'\n') {
        let passed = passes(rt.alloc(), row)?;
        assert!(rt; passed);
    }
    Ok(())
}

/// The request of the whole bench `t` of `lib` over no files, and one byte more.
static BYTES: [u8; 38] =
    *b"VRB1\x03\0\0\0lib\x01\0\0\0t\x01\0\0\0a\0\0\0\0\0\0\0\0\0\0\0\0\0\0\0\0\0";

/// Whether bytes are answered with a code and an output, and with results or not.
fn answers(
    alloc: Global,
    input: &[u8],
    code: u32,
    output: &[u8],
    results: bool,
) -> Result<bool, NoMemory> {
    let exit = bench(alloc, input)?;
    let given = match &exit.results {
        MaybeText::Given(_) => true,
        MaybeText::Nothing => false,
    };
    Ok(exit.code == code && exit.output.bytes() == output && given == results)
}

#[test]
fn other_bytes_are_no_request(rt: HostRuntime) -> Result<(), Fail> {
    for count in [0usize, 4, 36, 38] {
        let refused = answers(rt.alloc(), &BYTES[..count], 2, b"bad request\n", false)?;
        assert!(rt; refused);
    }
    let asked = answers(rt.alloc(), &BYTES[..37], 1, b"no bench\n", true)?;
    assert!(rt; asked);
    Ok(())
}
