//! The files of a project, with the text and the outline of each.

use base::{Items, Project, TextList};
use vhdl_outline::FileOutline;

/// The files of a project, with the text and the outline of each.
#[derive(Clone, Copy)]
pub struct Sources<'a> {
    pub project: &'a Project,
    pub texts: &'a TextList,
    pub outlines: &'a Items<FileOutline>,
}
