//! Records of views.

use base::{Graph, Text};

/// What was compiled, the file last, and what the compiler gave for it.
#[derive(Drop)]
pub struct Record {
    pub view: Graph,
    pub artefact: Text,
}
