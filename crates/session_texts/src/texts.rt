//! The unsaved texts of a session, by path.
ghost use Rattle.std.specs.Prelude.{◌≡◌, ◌++◌, [], IfOk, OnOk, OnErr, filter, length};
ghost use Rattle.std.specs.Option.{option_copied};
ghost use Rattle.outside.specs.Trees.{IsName, IsRising, is_listed as listed};
ghost use Rattle.memory_outside.specs.Trees.{file_at, paths_of};
ghost use Rattle.session_texts.specs.Texts.{AreAllowedTexts, after_put, has_text, is_within_limits, length_at, without_text};

use base::{GRAPH_TEXT_LIMIT, NoMemory, TEXT_LIMIT, Text, TextList};
use memory_outside::is_listed;
use std::alloc::Global;
use std::collections::BTreeMap;
use std::marker::Model;

/// Unsaved texts and their paths. Contracts see the list of both, in rising order of the paths.
#[derive(Drop)]
pub struct Overlays {
    map: BTreeMap<Vec<u8>, Text>,
    // the number of bytes of all texts
    total: u64,
}

impl Model for Overlays {
    ghost use Rattle.std.specs.Prelude.{List, ◌≡◌};
    ghost use Rattle.base.specs.declared.file.NamedText.{NamedText};
    ghost use Rattle.session_texts.specs.Entries.{texts_of};
    ghost use Rattle.session_texts.specs.Texts.{AreAllowedTexts, text_sum};

    ghost Value = { List NamedText };

    ghost view = { λ a. texts_of a.map.entries };

    ghost invariant = { λ a. AreAllowedTexts (texts_of a.map.entries)
        × (a.total ≡ text_sum (texts_of a.map.entries)) };
}

impl Overlays {
    /// No texts. It takes no memory.
    pub fn new(alloc: Global) -> Overlays
        ensures { result ≡ [] }
    {
        Overlays {
            map: BTreeMap::new(alloc),
            total: 0,
        }
    }

    /// The number of texts. Each path has at most one text.
    pub fn len(&self) -> usize
        ensures len { result ≡ length self.now }
        ensures rising { IsRising (paths_of self.now) }
        ensures allowed { AreAllowedTexts self.now }
    {
        self.map.len()
    }

    /// The unsaved text of a path, if it has one.
    pub fn get(&self, path: &[u8]) -> Option<&Text>
        ensures { option_copied result ≡ file_at self.now path.now }
    {
        self.map.get(path)
    }

    /// Adds the paths that a tree may list at the end of other paths, in rising order.
    pub fn add_listed(&self, alloc: Global, paths: &mut TextList) -> Result<(), NoMemory>
        ensures { OnOk result (paths.new ≡ paths.old ++ filter listed (paths_of self.now)) }
    {
        for path in self.map.keys() {
            if is_listed(path.as_slice()) {
                paths.push(Text::from_slice(alloc, path.as_slice())?)?;
            }
        }
        Ok(())
    }

    /// The number of bytes of the text of a path, or 0 without a text.
    fn length_of(&self, path: &[u8]) -> u64
        ensures { result ≡ length_at self.now path.now }
    {
        match self.get(path) {
            Some(text) => text.bytes().len() as u64,
            None => 0,
        }
    }

    /// Sets the text of a path and returns true, if the texts then are within the limits. Otherwise, and after `NoMemory`,
    /// the earlier texts stay.
    pub fn put(&mut self, path: Text, text: Text) -> Result<bool, NoMemory>
        requires { IsName path }
        ensures fits { IfOk result (λ fits. fits ≡ is_within_limits self.old path text) }
        ensures put { OnOk result (self.new ≡ after_put self.old path text) }
        ensures unchanged { OnErr result (self.new ≡ self.old) }
    {
        let length = text.bytes().len() as u64;
        if length > TEXT_LIMIT as u64 {
            return Ok(false);
        }
        let _count = self.len();
        let total = self.total - self.length_of(path.bytes()) + length;
        if total > GRAPH_TEXT_LIMIT as u64 {
            return Ok(false);
        }
        self.map.insert(path.into_vec(), text)?;
        self.total = total;
        Ok(true)
    }

    /// Drops the text of a path. Returns whether there was one.
    pub fn drop_path(&mut self, path: &[u8]) -> bool
        ensures had { result ≡ has_text self.old path.now }
        ensures dropped { self.new ≡ without_text path.now self.old }
    {
        match self.map.remove(path) {
            Some(text) => {
                self.total -= text.bytes().len() as u64;
                true
            }
            None => false,
        }
    }
}
