//! The keys of a text in TOML, in their order, with their offsets.

ghost use Rattle.std.specs.Prelude.{◌<◌};

use base::NoMemory;
use std::alloc::{AllocError, AllocFailed, Global};
use toml_parser::text::{first, skip, skip_blank, skip_ws};
use toml_parser::{ParseError, dotted_key, quoted, starts_string};

/// The table that a key stands in.
#[derive(Clone, Copy, Debug, PartialEq, Eq)]
pub enum TableKind {
    /// The file itself.
    Root,
    Library,
    Depends,
    /// Any other table. The program knows no key of it.
    Other,
}

/// A key, and where it and its value stand.
#[derive(Drop)]
pub struct FoundKey {
    pub table: TableKind,
    /// How many tables of this kind began before that of this key, and with it.
    pub number: usize,
    /// The name, or the first part of one with dots.
    pub name: String,
    /// The offset of its first byte.
    pub at: usize,
    /// The offset of the first byte of its value; for the name of a table that of the name.
    pub value_at: usize,
}

pub type KeyList = Vec<FoundKey>;

/// Why a walk ended before the end of the text.
#[derive(Drop)]
pub enum KeysEnd {
    NoMemory,
    /// The text is not valid TOML.
    NotToml,
}

impl From<ParseError> for KeysEnd {
    fn from(error: ParseError) -> KeysEnd {
        match error {
            ParseError::OutOfMemory => KeysEnd::NoMemory,
            ParseError::At(_, _, _) => KeysEnd::NotToml,
        }
    }
}

impl From<AllocError> for KeysEnd {
    fn from(_refused: AllocError) -> KeysEnd {
        KeysEnd::NoMemory
    }
}

impl<T: Drop> From<AllocFailed<T>> for KeysEnd {
    fn from(_refused: AllocFailed<T>) -> KeysEnd {
        KeysEnd::NoMemory
    }
}

/// The walk over a text.
#[derive(Drop)]
struct Walk {
    alloc: Global,
    length: usize,
    found: KeyList,
    table: TableKind,
    /// The last key of the file itself, whose value may hold tables.
    last: TableKind,
    libraries: usize,
    depends: usize,
}

/// The keys of a text, up to the first fault if the walk finds that the text is not valid TOML.
pub fn keys_of(alloc: Global, text: &str) -> Result<KeyList, NoMemory> {
    let mut walk = Walk {
        alloc,
        length: text.len(),
        found: Vec::new(alloc),
        table: TableKind::Root,
        last: TableKind::Other,
        libraries: 0,
        depends: 0,
    };
    match walk.take_text(text) {
        Ok(()) | Err(KeysEnd::NotToml) => Ok(walk.found),
        Err(KeysEnd::NoMemory) => Err(NoMemory),
    }
}

fn kind_named(name: &str) -> TableKind {
    match name {
        "library" => TableKind::Library,
        "depends" => TableKind::Depends,
        _ => TableKind::Other,
    }
}

impl Walk {
    fn take_text(&mut self, text: &str) -> Result<(), KeysEnd> {
        let mut rest = skip_blank(text, true);
        for _ in 0..text.len() {
            if rest.is_empty() {
                return Ok(());
            }
            let after = if first(rest) == b'[' {
                self.take_header(rest)?
            } else {
                self.take_line(rest)?
            };
            rest = skip_blank(after, true);
        }
        Ok(())
    }

    /// Takes the name of a table, and gives what follows its brackets.
    fn take_header<'a>(&mut self, header: &'a str) -> Result<&'a str, KeysEnd> {
        let name = skip_ws(without_bracket(without_bracket(header, b'['), b'['));
        let at = self.offset(name);
        let (key, after) = dotted_key(self.alloc, name)?;
        let is_inner = !key.path.is_empty();
        let part = first_part(key.path, key.last);
        let kind = kind_named(part.as_str());
        self.table = if is_inner { TableKind::Other } else { kind };
        self.push(TableKind::Root, part, at, at)?;
        self.begin(self.table);
        Ok(without_bracket(without_bracket(after, b']'), b']'))
    }

    /// One more table begins.
    fn begin(&mut self, kind: TableKind) {
        match kind {
            TableKind::Library => self.libraries = self.libraries.saturating_add(1),
            TableKind::Depends => self.depends = self.depends.saturating_add(1),
            TableKind::Root | TableKind::Other => {}
        }
    }

    /// Takes a key and its value, and gives what follows.
    fn take_line<'a>(&mut self, line: &'a str) -> Result<&'a str, KeysEnd> {
        let table = self.table;
        let value = self.take_key(table, line)?;
        self.take_value(value)
    }

    /// Takes a key, and gives its value and what follows.
    fn take_key<'a>(&mut self, table: TableKind, line: &'a str) -> Result<&'a str, KeysEnd> {
        let at = self.offset(line);
        let (key, after) = dotted_key(self.alloc, line)?;
        if first(after) != b'=' {
            return Err(KeysEnd::NotToml);
        }
        let value = skip_ws(skip(after, 1));
        let value_at = self.offset(value);
        let part = first_part(key.path, key.last);
        if table == TableKind::Root {
            self.last = kind_named(part.as_str());
        }
        self.push(table, part, at, value_at)?;
        Ok(value)
    }

    fn push(
        &mut self,
        table: TableKind,
        name: String,
        at: usize,
        value_at: usize,
    ) -> Result<(), KeysEnd> {
        let number = match table {
            TableKind::Library => self.libraries,
            TableKind::Depends => self.depends,
            TableKind::Root | TableKind::Other => 0,
        };
        self.found.push(FoundKey {
            table,
            number,
            name,
            at,
            value_at,
        })?;
        Ok(())
    }

    /// Passes over a value, with the keys of tables inside it, and gives what follows.
    fn take_value<'a>(&mut self, value: &'a str) -> Result<&'a str, KeysEnd> {
        let mut open: Vec<u8> = Vec::new(self.alloc);
        let mut rest = value;
        for _ in 0..value.len() {
            if starts_string(rest) {
                rest = quoted(self.alloc, rest)?.1;
                continue;
            }
            let byte = first(rest);
            if open.is_empty() && (byte == b'#' || byte == b'\n') {
                return Ok(rest);
            }
            if byte == b'#' {
                rest = skip_blank(rest, true);
                continue;
            }
            let Some(after) = without_byte(rest) else {
                return Ok(rest);
            };
            rest = self.take_byte(&mut open, byte, after)?;
        }
        Ok(rest)
    }

    /// Takes one byte of a value that is in no string. `open` are the arrays and tables that are open.
    fn take_byte<'a>(
        &mut self,
        open: &mut Vec<u8>,
        byte: u8,
        after: &'a str,
    ) -> Result<&'a str, KeysEnd> {
        match byte {
            b'[' => {
                open.push(byte)?;
                Ok(after)
            }
            b'{' => {
                open.push(byte)?;
                self.take_inner(open.len(), after, true)
            }
            b']' | b'}' => {
                open.pop();
                Ok(after)
            }
            b',' => {
                if is_in_table(open.as_slice()) {
                    self.take_inner(open.len(), after, false)
                } else {
                    Ok(after)
                }
            }
            _ => Ok(after),
        }
    }

    /// Takes the key that comes next in a table inside a value, if one does, and gives what follows. `depth` is how many
    /// arrays and tables are open.
    fn take_inner<'a>(
        &mut self,
        depth: usize,
        inside: &'a str,
        is_first: bool,
    ) -> Result<&'a str, KeysEnd> {
        let line = skip_blank(inside, true);
        let is_known = self.table == TableKind::Root && depth == 2;
        let kind = if is_known {
            self.last
        } else {
            TableKind::Other
        };
        if is_first {
            self.begin(kind);
        }
        if first(line) == b'}' {
            return Ok(line);
        }
        self.take_key(kind, line)
    }

    fn offset(&self, rest: &str) -> usize {
        self.length.saturating_sub(rest.len())
    }
}

/// What follows this bracket, where the text begins with it.
fn without_bracket(text: &str, bracket: u8) -> &str
    requires some { 0 < bracket }
    requires ascii { bracket < 128 }
{
    if first(text) == bracket {
        skip(text, 1)
    } else {
        text
    }
}

/// The first part of a key.
fn first_part(path: Vec<String>, last: String) -> String {
    match path.into_iter().next() {
        Some(part) => part,
        None => last,
    }
}

/// What follows the first byte, where this is one of ASCII.
fn without_byte(text: &str) -> Option<&str> {
    let byte = first(text);
    if byte == 0 || byte >= 128 {
        return None;
    }
    Some(skip(text, 1))
}

/// Whether the innermost of what is open is a table.
fn is_in_table(open: &[u8]) -> bool {
    match open.last() {
        Some(byte) => *byte == b'{',
        None => false,
    }
}
