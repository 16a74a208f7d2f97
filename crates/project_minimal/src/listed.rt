//! The files of a listed project.

ghost use Rattle.std.specs.Prelude.{◌≡◌, ◌≤◌, length, IfOk};
ghost use Rattle.base.specs.Projects.{IsProject};
ghost use Rattle.base.specs.PresentGraph.{listed};
ghost use Rattle.order.specs.LinkedGraph.{FitTexts};

use base::{Entry, FILE_LIMIT, NoMemory, Project, TextList};
use project_views::listed_entry;
use std::alloc::Global;

/// The files of a listed project in listed order, each depending on all earlier ones. The texts are moved into them.
pub fn listed_entries(
    alloc: Global,
    project: &Project,
    texts: TextList,
) -> Result<Vec<Entry>, NoMemory>
    requires project { IsProject project.now }
    requires few { length project.now.files ≤ FILE_LIMIT }
    requires texts { FitTexts project.now.files texts }
    ensures { IfOk result (λ entries. entries.items ≡ listed project.now.files texts) }
{
    let files = project.files.as_slice();
    let mut entries = Vec::with_capacity(alloc, files.len())?;
    for text in texts.into_vec() {
        let position = entries.len();
        let entry = listed_entry(alloc, position as u32, &files[position], text)?;
        entries.push(entry)?;
    }
    Ok(entries)
}
