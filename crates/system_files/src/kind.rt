//! The kind of a report, by its bytes.

/// The bytes of a file that are looked at for its kind.
pub const LOOKED_AT: usize = 1_048_576;

/// The member of the export that gives its form.
static FORMAT_KEY: &[u8] = b"export_format_version";

/// A kind of report. One report is written in place of another of its kind alone.
#[derive(Clone, Copy, PartialEq, Eq)]
pub enum Kind {
    /// XML whose first element is `testsuite` or `testsuites`.
    Suite,
    /// A JSON object with a member `export_format_version`.
    Export,
    /// Lines of the results of a test, or no text.
    Results,
}

/// The kind of a report, if the bytes begin one.
pub fn kind_of(bytes: &[u8]) -> Option<Kind> {
    let bytes = bytes.strip_prefix(b"\xef\xbb\xbf").unwrap_or(bytes);
    let bytes = without_blanks(bytes);
    match bytes.first() {
        Some(b'<') if begins_suite(bytes) => Some(Kind::Suite),
        Some(b'{') if has_format_key(bytes) => Some(Kind::Export),
        Some(b't') if begins_results(bytes) => Some(Kind::Results),
        None => Some(Kind::Results),
        Some(_) => None,
    }
}

/// Whether a text begins with a line of results.
fn begins_results(text: &[u8]) -> bool {
    text.starts_with(b"test_start:") || text.starts_with(b"test_suite_done")
}

/// The bytes without the blanks, tabs and line ends at their start.
fn without_blanks(bytes: &[u8]) -> &[u8] {
    for at in 0..bytes.len() {
        if !is_blank(bytes[at]) {
            return &bytes[at..];
        }
    }
    &[]
}

fn is_blank(byte: u8) -> bool {
    matches!(byte, b' ' | b'\t' | b'\r' | b'\n')
}

/// Whether the first element of XML is a suite of tests. Its declaration, comments, instructions and document type come
/// before.
fn begins_suite(xml: &[u8]) -> bool {
    let mut rest = xml;
    for _ in 0..xml.len() {
        let after = match rest {
            [b'<', b'?', inside @ ..] => after(inside, b"?>"),
            [b'<', b'!', b'-', b'-', inside @ ..] => after(inside, b"-->"),
            [b'<', b'!', inside @ ..] => after_document_type(inside),
            _ => return is_suite(rest),
        };
        let Some(after) = after else {
            return false;
        };
        rest = without_blanks(after);
    }
    false
}

/// What follows the end of a document type, whose own declarations stand in brackets.
fn after_document_type(inside: &[u8]) -> Option<&[u8]> {
    let before_end = before(inside, b'>');
    if before_end.contains(&b'[') {
        after(after(inside, b"]")?, b">")
    } else {
        after(inside, b">")
    }
}

/// The bytes before the first that is this one.
fn before(bytes: &[u8], end: u8) -> &[u8] {
    for at in 0..bytes.len() {
        if bytes[at] == end {
            return &bytes[..at];
        }
    }
    bytes
}

/// The bytes after the first place of these.
fn after<'a>(bytes: &'a [u8], end: &[u8]) -> Option<&'a [u8]> {
    for at in 0..bytes.len() {
        if let Some(rest) = bytes[at..].strip_prefix(end) {
            return Some(rest);
        }
    }
    None
}

/// Whether a tag begins a suite of tests, or a list of them.
fn is_suite(tag: &[u8]) -> bool {
    let Some(rest) = tag.strip_prefix(b"<testsuite") else {
        return false;
    };
    let rest = rest.strip_prefix(b"s").unwrap_or(rest);
    match rest.first() {
        Some(next) => is_blank(*next) || matches!(*next, b'/' | b'>'),
        None => false,
    }
}

/// Where a look through JSON is.
#[derive(Drop)]
struct Look {
    // objects and lists that are open, and the string that is
    depth: usize,
    in_string: bool,
    is_escaped: bool,
    // the bytes of the open string that are those of the key, while all are
    same: Option<usize>,
    // whether the last string, with only blanks behind it, is the key
    is_key: bool,
    is_found: bool,
}

/// Whether the outermost object of JSON has the member that gives the form of an export.
fn has_format_key(json: &[u8]) -> bool {
    let mut look = Look {
        depth: 0,
        in_string: false,
        is_escaped: false,
        same: None,
        is_key: false,
        is_found: false,
    };
    for byte in json {
        if look.in_string {
            look.step_in_string(*byte);
        } else {
            look.step(*byte);
        }
        if look.is_found {
            return true;
        }
    }
    false
}

impl Look {
    /// A byte outside of strings.
    fn step(&mut self, byte: u8) {
        match byte {
            b'"' => {
                self.in_string = true;
                self.same = Some(0);
            }
            b':' if self.is_key => self.is_found = true,
            b'{' | b'[' => self.depth = self.depth.saturating_add(1),
            b'}' | b']' => self.depth = self.depth.saturating_sub(1),
            _ => {}
        }
        if !is_blank(byte) {
            self.is_key = false;
        }
    }

    /// A byte inside a string.
    fn step_in_string(&mut self, byte: u8) {
        if self.is_escaped {
            self.is_escaped = false;
        } else if byte == b'\\' {
            self.is_escaped = true;
            self.same = None;
        } else if byte == b'"' {
            self.in_string = false;
            self.is_key = self.depth == 1 && self.same == Some(FORMAT_KEY.len());
        } else {
            self.same = grow_run(self.same, byte);
        }
    }
}

/// How many bytes are those of the key, with one more byte.
fn grow_run(same: Option<usize>, byte: u8) -> Option<usize> {
    let count = same?;
    if FORMAT_KEY.get(count) == Some(&byte) {
        Some(count.saturating_add(1))
    } else {
        None
    }
}
