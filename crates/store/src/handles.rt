//! The latest records of the files of a graph, by position.

ghost use Rattle.std.specs.Prelude.{◌≡◌, ◌<◌, ◌++◌, ◌∷◌, [], length, slice_index_or, slice_set, None, Some, OnOk};

use base::NoMemory;
use std::alloc::Global;
use std::marker::Model;

/// The number of a record, and the number of the product of its file and artefact. If `has_text` is true, the record has the text
/// of the file; otherwise the texts must be compared.
#[derive(Clone, Copy)]
pub struct RecordHandle {
    pub row: usize,
    pub product: usize,
    pub has_text: bool,
}

/// For each position of a graph the handle of the latest record of its file, if it has one. Contracts see their list.
#[derive(Drop)]
pub struct RecordHandles {
    handles: Vec<Option<RecordHandle>>,
}

impl Model for RecordHandles {
    ghost use Rattle.std.specs.Prelude.{List, Option};
    ghost use Rattle.store.specs.declared.handles.RecordHandle.{RecordHandle};

    ghost Value = { List (Option RecordHandle) };

    ghost view = { λ a. a.handles.items };
}

impl RecordHandles {
    /// No position, which takes no memory.
    pub(crate) fn new(alloc: Global) -> RecordHandles
        ensures { result ≡ [] }
    {
        RecordHandles {
            handles: Vec::new(alloc),
        }
    }

    /// Adds the handle of the next position.
    pub(crate) fn push(&mut self, handle: Option<RecordHandle>) -> Result<(), NoMemory>
        ensures { OnOk result (self.new ≡ self.old ++ handle ∷ []) }
    {
        self.handles.push(handle)?;
        Ok(())
    }

    /// The handle of a position.
    pub(crate) fn get(&self, at: usize) -> Option<RecordHandle>
        requires { at < length self.now }
        ensures { result ≡ slice_index_or self.now at None }
    {
        self.handles[at]
    }

    /// Gives a position another handle. It takes no memory.
    pub(crate) fn set(&mut self, at: usize, handle: RecordHandle)
        requires { at < length self.old }
        ensures { self.new ≡ slice_set self.old at (Some handle) }
    {
        self.handles[at] = Some(handle);
    }
}
