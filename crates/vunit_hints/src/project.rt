//! The current text of the project file, and lines about its keys and values.

use crate::texts::text_of;
use crate::wrong::wrong_table;
use crate::{
    FoundKey, KeyList, LineWriter, TableKind, UnknownKey, key_of, keys_of, push_warning,
    shown_value, toml_fault, unknown_keys,
};
use base::NoMemory;
use std::alloc::Global;
use system_files::{location_line, location_of};

/// The project file in TOML.
const TOML_FILE: &[u8] = b"vunit.toml";

/// How many keys that aren't known are shown.
const KEYS_SHOWN: usize = 20;

/// The text of the project file in TOML.
#[derive(Drop)]
pub struct ProjectText {
    text: Vec<u8>,
}

/// The project file in TOML, if there is one.
pub fn project_text(rt: &HostRuntime) -> Option<ProjectText> {
    Some(ProjectText {
        text: text_of(rt, TOML_FILE)?,
    })
}

impl ProjectText {
    /// The keys; none where the text isn't UTF-8.
    pub fn keys(&self, alloc: Global) -> Result<KeyList, NoMemory> {
        match str::from_utf8(self.text.as_slice()) {
            Ok(text) => keys_of(alloc, text),
            Err(_) => Ok(Vec::new(alloc)),
        }
    }

    /// The bytes.
    pub fn bytes(&self) -> &[u8] {
        self.text.as_slice()
    }

    /// Whether the file itself has a key of this name.
    pub fn has_key(&self, alloc: Global, name: &str) -> Result<bool, NoMemory> {
        let keys = self.keys(alloc)?;
        Ok(keys.iter().any(|key| key.table == TableKind::Root && key.name.as_str() == name))
    }

    /// Adds a warning for each of the first keys that aren't known, and how many more there are.
    pub fn push_unknown(&self, alloc: Global, lines: &mut Vec<Vec<u8>>) -> Result<(), NoMemory> {
        let keys = self.keys(alloc)?;
        let unknown = unknown_keys(alloc, keys.as_slice(), KEYS_SHOWN)?;
        for one in &unknown.first {
            self.push_one(alloc, lines, one)?;
        }
        if unknown.more > 0 {
            let more = unknown.more;
            let text = format!(in alloc; "vunit.toml: unknown keys: {more} more")?;
            push_warning(alloc, lines, text.as_bytes())?;
        }
        Ok(())
    }

    fn push_one(
        &self,
        alloc: Global,
        lines: &mut Vec<Vec<u8>>,
        unknown: &UnknownKey<'_>,
    ) -> Result<(), NoMemory> {
        let location = self.location(alloc, unknown.key)?;
        let mut line = LineWriter::warning(alloc)?;
        line.put(TOML_FILE)?;
        line.put(location.as_bytes())?;
        line.put(b"unknown key ")?;
        line.put(unknown.key.name.as_bytes())?;
        if let Some(meant) = unknown.meant {
            line.put(b" (did you mean ")?;
            line.put(meant.as_bytes())?;
            line.put(b"?)")?;
        }
        line.finish(lines)
    }

    /// The location of a key, as `:1:1: `.
    fn location(&self, alloc: Global, key: &FoundKey) -> Result<String, NoMemory> {
        let at = key.at.min(self.text.len());
        let location = location_of(self.text.as_slice(), at);
        let line = location.line;
        let column = location.column;
        Ok(format!(in alloc; ":{line}:{column}: ")?)
    }

    /// The line that says where and why the text is not valid TOML, if it is not.
    pub fn fault_line(&self, alloc: Global) -> Result<Option<Vec<u8>>, NoMemory> {
        let Some(fault) = toml_fault(alloc, self.text.as_slice())? else {
            return Ok(None);
        };
        let at = fault.at.min(self.text.len());
        let location = location_of(self.text.as_slice(), at);
        let line = location_line(alloc, TOML_FILE, location, fault.said.as_slice())?;
        Ok(Some(line))
    }

    /// The line with the location of the wrong value of a key.
    pub fn value_line(&self, alloc: Global, name: &[u8]) -> Result<Option<Vec<u8>>, NoMemory> {
        let Ok(text) = str::from_utf8(self.text.as_slice()) else {
            return Ok(None);
        };
        let Ok(name) = str::from_utf8(name) else {
            return Ok(None);
        };
        let keys = keys_of(alloc, text)?;
        let number = wrong_table(alloc, self.text.as_slice(), name)?;
        let Some(key) = key_of(keys.as_slice(), name, number) else {
            return Ok(None);
        };
        let mut words = Vec::from_slice(alloc, b"wrong value of ")?;
        words.extend_from_slice(name.as_bytes())?;
        words.extend_from_slice(b": ")?;
        words.extend_from_slice(shown_value(text, key.value_at))?;
        let at = key.value_at.min(text.len());
        let location = location_of(self.text.as_slice(), at);
        let line = location_line(alloc, TOML_FILE, location, words.as_slice())?;
        Ok(Some(line))
    }
}
