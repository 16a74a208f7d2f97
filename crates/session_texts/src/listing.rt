//! What an overlay lists.
ghost use Rattle.std.specs.Prelude.{◌≡◌, IfOk};
ghost use Rattle.std.specs.List.{AllByRecursion};
ghost use Rattle.outside.specs.Trees.{IsListing, IsName, names_end};
ghost use Rattle.session_texts.specs.OverlayTrees.{overlay_names};

use crate::Overlays;
use base::{NoMemory, TextList};
use memory_outside::rising_names;
use outside::NamesEnd;
use std::alloc::Global;

/// The listing of the paths of a tree and of the unsaved texts.
pub fn merge(
    alloc: Global,
    texts: &Overlays,
    mut paths: TextList,
    limit: u64,
) -> Result<NamesEnd, NoMemory>
    requires { AllByRecursion IsName paths }
    ensures form { IfOk result (IsListing limit) }
    ensures names { IfOk result (λ end. end ≡ names_end (overlay_names texts.now paths) limit) }
{
    let _count = texts.len();
    texts.add_listed(alloc, &mut paths)?;
    Ok(rising_names(paths, limit))
}
