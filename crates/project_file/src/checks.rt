//! The faults of a library whose files aren't kept.

ghost use Rattle.std.specs.Prelude.{◌≡◌, IfOk};
ghost use Rattle.std.specs.List.{list_any};
ghost use Rattle.toml.specs.View.{table_view};
ghost use Rattle.project_file.specs.Paths.{matches_path};
ghost use Rattle.project_file.specs.Steps.{ReadsStep};
ghost use Rattle.project_file.specs.Few.{all_match, checked_library};

use crate::keys::{texts_at, words_at};
use crate::paths::{matches_path, parts_of};
use crate::values::Form;
use base::{NoMemory, OrMemory, ProjectFault, ProjectFileList, Text};
use std::alloc::Global;
use toml::Table;

/// Whether a pattern matches a name: no name is looked at after the first that it matches.
fn any_match(alloc: Global, names: &[Text], pattern: &[u8]) -> Result<bool, NoMemory>
    ensures { IfOk result (λ any. any ≡ list_any (matches_path pattern.now) names.now) }
{
    let parts = parts_of(alloc, pattern)?;
    for i in 0..names.len() {
        if matches_path(alloc, parts.as_slice(), names[i].bytes())? {
            return Ok(true);
        }
    }
    Ok(false)
}

/// Whether each pattern matches a name, or the first that matches none.
#[tactic(auto, using(crate::proofs::FewSteps::next_matches, crate::proofs::FewSteps::none_matches, crate::proofs::FewSteps::all_looked_at))]
fn all_match(alloc: Global, names: &[Text], patterns: &[Text]) -> Result<(), OrMemory<ProjectFault>>
    ensures { ReadsStep (all_match names.now patterns.now) result }
{
    for i in 0..patterns.len() {
        if !any_match(alloc, names, patterns[i].bytes())? {
            let pattern = patterns[i].copy(alloc)?;
            return Err(OrMemory::Fault(ProjectFault::NothingMatches { pattern }));
        }
    }
    Ok(())
}

/// The first fault in the table of a library, or `None`. The files of the libraries before it are already more than a
/// project may have, so this library's files aren't made.
#[tactic(auto, using(crate::proofs::LibrarySum::fault_ends))]
pub fn check_library(
    alloc: Global,
    names: &[Text],
    table: &Table,
) -> Result<Option<ProjectFileList>, OrMemory<ProjectFault>>
    ensures { ReadsStep (checked_library names.now (table_view table.now)) result }
{
    let patterns = texts_at(alloc, Form::Pattern, "library.", "files", table)?;
    all_match(alloc, names, patterns.as_slice())?;
    let _options = words_at(alloc, "library.", "options", table)?;
    Ok(None)
}
