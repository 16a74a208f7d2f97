//! The generated files, byte for byte, and the lines that count.

use base::NoMemory;
use generated_project::{Counts, count_lines, edited_package, generated_files};
use std::alloc::Global;
use std::process::Abort;
use std::test::Fail;

/// The files of two packages, where the second is edited: the path of each, `=`, its text and `|`. `~` stands for a line feed.
static TWO: &str = "\
vunit.toml=[[library]]~name = \"lib\"~files = [\"src/*.vhd\", \"tb.vhd\"]~|\
tb.vhd=library lib;~use lib.p1.all;~entity tb is generic (runner_cfg : string); end;~architecture a of tb is begin~  x <= run(\"one\");~  y <= run(\"two\");~end;~|\
src/f1.vhd=package p1 is~  constant c : integer := 0;~end package p1;~|\
src/f2.vhd=library lib;~use lib.p1.all;~package p2 is~  constant c : integer := 0;~end package p2;~-- child: note 1~|";

/// The last file of 4,095 packages, none of which is edited.
static LAST: &str =
    "src/f4095.vhd=library lib;~use lib.p2047.all;~package p4095 is~  constant c : integer := 0;~end package p4095;~|";

fn push_shown(shown: &mut Vec<u8>, bytes: &[u8]) -> Result<(), NoMemory> {
    for byte in bytes {
        shown.push(if *byte == b'\n' { b'~' } else { *byte })?;
    }
    Ok(())
}

/// The files of a project from a place on, in one text.
fn shown_from(alloc: Global, packages: u32, edited: u64, from: usize) -> Result<Vec<u8>, NoMemory> {
    let files = generated_files(alloc, packages, edited)?;
    let mut shown = Vec::new(alloc);
    for file in files.as_slice().iter().skip(from) {
        push_shown(&mut shown, file.path.bytes())?;
        shown.push(b'=')?;
        push_shown(&mut shown, file.bytes.bytes())?;
        shown.push(b'|')?;
    }
    Ok(shown)
}

#[test]
fn files_are_those_of_the_format(rt: HostRuntime) -> Result<(), Fail> {
    let two = shown_from(rt.alloc(), 2, 2, 0)?;
    assert!(rt; two.as_slice() == TWO.as_bytes());
    let last = shown_from(rt.alloc(), 4_095, 0, 4_096)?;
    assert!(rt; last.as_slice() == LAST.as_bytes());
    Ok(())
}

#[test]
fn the_second_package_is_edited(rt: HostRuntime) -> Result<(), Fail> {
    assert!(rt; edited_package(1) == 1);
    assert!(rt; edited_package(2) == 2);
    assert!(rt; edited_package(4_095) == 2);
    Ok(())
}

#[test]
fn lines_count(rt: HostRuntime) -> Result<(), Fail> {
    let counts = Counts {
        files: 11,
        first: 11,
        second: 6,
        passed: 1,
        total: 2,
    };
    let lines = count_lines(rt.alloc(), counts)?;
    let wanted =
        b"files 11\nfirst build compiled 11\nsecond build compiled 6\ntests passed 1 of 2\n".as_slice();
    assert!(rt; lines.bytes() == wanted);
    Ok(())
}
