//! Tests of the bytes of requests, byte for byte.

use crate::requests::compile_request;
use base::{Entry, NoMemory, Positions, Text, TextList};
use child_compile_request::{CompileJob, read_compile_request};
use std::alloc::Global;
use std::test::Fail;

/// The request of file `a.vhd` of library `lib` with the text `x`, up to the number of its dependencies.
const FRONT: [u8; 25] = [
    b'V', b'R', b'C', b'1', //
    3, 0, 0, 0, b'l', b'i', b'b', //
    5, 0, 0, 0, b'a', b'.', b'v', b'h', b'd', //
    1, 0, 0, 0, b'x',
];

/// No dependency.
const NONE: [u8; 4] = [0, 0, 0, 0];

/// The file `p.vhd` of library `lib2`, with the artefact `yz`.
const ONE: [u8; 27] = [
    1, 0, 0, 0, //
    4, 0, 0, 0, b'l', b'i', b'b', b'2', //
    5, 0, 0, 0, b'p', b'.', b'v', b'h', b'd', //
    2, 0, 0, 0, b'y', b'z',
];

fn request(alloc: Global, deps: &[u8], after: &[u8]) -> Result<Vec<u8>, NoMemory> {
    let mut bytes = Vec::from_slice(alloc, &FRONT)?;
    bytes.extend_from_slice(deps)?;
    bytes.extend_from_slice(after)?;
    Ok(bytes)
}

/// The command, and the input that the job of these bytes is written as.
fn again(alloc: Global, bytes: &[u8]) -> Result<(TextList, Text), Fail> {
    let job = read_compile_request(alloc, bytes)?.ok_or("the bytes are a job")?;
    let CompileJob { name, text, deps } = job;
    let mut command = TextList::new(alloc);
    command.push(Text::from_slice(alloc, b"cc")?)?;
    let entry = Entry {
        name,
        command,
        text,
        deps: Positions::new(alloc),
    };
    let request = compile_request(alloc, &entry, &deps)?;
    Ok((request.command, request.input))
}

#[test]
fn requests_are_read_and_written(rt: HostRuntime) -> Result<(), Fail> {
    let table: &[&[u8]] = &[&NONE, &ONE];
    for deps in table {
        let bytes = request(rt.alloc(), deps, b"")?;
        let (command, input) = again(rt.alloc(), &bytes)?;
        assert!(rt; command.len() == 1);
        assert!(rt; input.bytes() == bytes.as_slice());
    }
    Ok(())
}

#[test]
fn a_job_has_its_parts(rt: HostRuntime) -> Result<(), Fail> {
    let bytes = request(rt.alloc(), &ONE, b"")?;
    let job = read_compile_request(rt.alloc(), &bytes)?.ok_or("the bytes are a job")?;
    assert!(rt; job.name.library.bytes() == b"lib".as_slice());
    assert!(rt; job.name.path.bytes() == b"a.vhd".as_slice());
    assert!(rt; job.text.bytes() == b"x".as_slice());
    assert!(rt; job.deps.len() == 1);
    for file in job.deps.as_slice() {
        assert!(rt; file.name.library.bytes() == b"lib2".as_slice());
        assert!(rt; file.name.path.bytes() == b"p.vhd".as_slice());
        assert!(rt; file.artefact.bytes() == b"yz".as_slice());
    }
    Ok(())
}

#[test]
fn other_bytes_are_no_job(rt: HostRuntime) -> Result<(), Fail> {
    let table: &[(&[u8], &[u8])] = &[
        (&NONE[..3], b""),
        (&NONE, b"\0"),
        (&ONE[..26], b""),
        (&ONE, b"\0"),
    ];
    for (deps, after) in table {
        let bytes = request(rt.alloc(), deps, after)?;
        assert!(rt; read_compile_request(rt.alloc(), &bytes)?.is_none());
    }
    Ok(())
}
