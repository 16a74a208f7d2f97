//! The output of a child so far.

ghost use Rattle.std.specs.Prelude.{◌≡◌, ◌≤◌, ◌++◌, [], ℕ, List, Some, false, length, OnOk};
ghost use Rattle.base.specs.declared.limits.TheConstants.{ARTEFACT_LIMIT};
ghost use Rattle.system_files.specs.Prefixes.{IsPrefix};

use base::{ARTEFACT_LIMIT, NoMemory};
use std::alloc::Global;
use system_files::Prefix;

/// The first bytes that a child has printed, and whether there were more than are kept.
#[derive(Drop)]
pub struct Printed {
    kept: Vec<u8>,
    more: bool,
    ghost short: { length kept.items ≤ ARTEFACT_LIMIT },
}

impl Printed {
    /// Nothing is printed yet. It takes no memory.
    pub fn new(alloc: Global) -> Printed
        ensures { IsPrefix ARTEFACT_LIMIT (Some []) result.kept.items result.more }
    {
        Printed {
            kept: Vec::new(alloc),
            more: false,
        }
    }

    /// Adds what was printed next.
    pub fn add(&mut self, bytes: &[u8]) -> Result<(), NoMemory>
        ensures { (before : List ℕ) →
            IsPrefix ARTEFACT_LIMIT (Some before) self.old.kept.items self.old.more →
            OnOk result (IsPrefix ARTEFACT_LIMIT (Some (before ++ bytes.now)) self.new.kept.items
            self.new.more) }
    {
        let room = ARTEFACT_LIMIT - self.kept.len();
        if bytes.len() <= room {
            self.kept.extend_from_slice(bytes)?;
        } else {
            self.kept.extend_from_slice(&bytes[..room])?;
            self.more = true;
        }
        Ok(())
    }

    /// The kept bytes, at most 262,144, and whether there were more.
    pub fn into_prefix(self) -> Prefix
        ensures kept { result.kept.items ≡ self.kept.items }
        ensures more { result.more ≡ self.more }
        ensures short { length result.kept.items ≤ ARTEFACT_LIMIT }
    {
        let Printed { kept, more } = self;
        Prefix { kept, more }
    }
}
