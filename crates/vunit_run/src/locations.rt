//! The line that says where in a file a refusal is, for editors.

use base::{LexFault, ProjectFault, UnitFault};
use base_outcomes::Refusal;
use report::refusal_text;
use std::alloc::Global;
use system_files::{Location, location_line, location_of};
use vunit_hints::{project_text, text_of};

/// The project file whose lines can be bad.
const LINES_FILE: &[u8] = b"vunit.csv";

/// The line of a refusal that is about a location in a file. It is left out if the file can't be read any more, or is now too
/// short for the location.
pub fn refusal_location(rt: &HostRuntime, refusal: &Refusal) -> Option<Vec<u8>> {
    match refusal {
        Refusal::Lex { file, fault } => {
            let path = file.path.bytes();
            refusal_line(rt, path, location_at(rt, path, lex_offset(fault))?, refusal)
        }
        Refusal::Units { file, fault } => {
            let path = file.path.bytes();
            refusal_line(
                rt,
                path,
                location_at(rt, path, unit_offset(fault))?,
                refusal,
            )
        }
        Refusal::Project {
            fault: ProjectFault::BadLine { line },
        } => refusal_line(
            rt,
            LINES_FILE,
            start_of_line(rt, LINES_FILE, *line)?,
            refusal,
        ),
        Refusal::Project {
            fault: ProjectFault::NotToml,
        } => project_text(rt)?.fault_line(rt.alloc()).ok()?,
        Refusal::Project {
            fault: ProjectFault::WrongType { key },
        } => project_text(rt)?.value_line(rt.alloc(), key.bytes()).ok()?,
        _ => None,
    }
}

fn lex_offset(fault: &LexFault) -> u32 {
    match fault {
        LexFault::UnclosedString { at }
        | LexFault::UnclosedExtended { at }
        | LexFault::UnclosedComment { at } => *at,
    }
}

fn unit_offset(fault: &UnitFault) -> u32 {
    match fault {
        UnitFault::NotUnit { at } | UnitFault::NotEnded { at } => *at,
    }
}

/// The location of an offset in the current text of a file, if the file can be read and is long enough.
fn location_at(rt: &HostRuntime, path: &[u8], at: u32) -> Option<Location> {
    let text = text_of(rt, path)?;
    let at = at as usize;
    if at > text.len() {
        return None;
    }
    Some(location_of(text.as_slice(), at))
}

/// The location where a line of a file begins.
fn start_of_line(rt: &HostRuntime, path: &[u8], line: u32) -> Option<Location> {
    let text = text_of(rt, path)?;
    let line = line as usize;
    let end = location_of(text.as_slice(), text.len());
    if line > end.line || line == end.line && end.column == 1 {
        return None;
    }
    Some(Location { line, column: 1 })
}

/// The line of a location, with the words of the refusal.
fn refusal_line(
    rt: &HostRuntime,
    path: &[u8],
    location: Location,
    refusal: &Refusal,
) -> Option<Vec<u8>> {
    let text = refusal_text(rt.alloc(), refusal).ok()?;
    let words = words_of(text.bytes());
    location_line(rt.alloc(), path, location, words).ok()
}

/// The text of a refusal without the program's name before it and the end of its line.
fn words_of(text: &[u8]) -> &[u8] {
    let text = text.strip_prefix(b"vunit_run: ").unwrap_or(text);
    text.strip_suffix(b"\n").unwrap_or(text)
}
