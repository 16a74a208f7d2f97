//! A tree of files in which unsaved texts count in place of saved files.
ghost use Rattle.std.specs.Prelude.{◌≡◌, ◌++◌, ◌∷◌, [], OnOk, OnErr};

use crate::Overlays;
use crate::listing::merge;
use base::{NoMemory, Text, TextList};
use memory_outside::read_text;
use outside::{NamesEnd, ReadEnd, Tree, TreeFault};
use std::alloc::Global;

/// A tree of files, unsaved texts that count in place of its files, and the paths that were asked for. It borrows all
/// three and owns no memory.
#[derive(Drop)]
pub struct Overlay<'t, T> {
    pub base: &'t mut T,
    pub texts: &'t Overlays,
    pub asked: &'t mut TextList,
}

impl<'t, T: Tree> Tree for Overlay<'t, T> {
    ghost use Rattle.std.specs.Prelude.{List, ℕ};
    ghost use Rattle.base.specs.declared.file.NamedText.{NamedText};
    ghost use Rattle.session_texts.specs.OverlayTrees.{first_same, overlay_names, overlay_file, same_overlay, second_same};
    ghost use Rattle.session_texts.specs.OverlayTreeLaws.{lists_overlay};

    ghost tells = { T.tells };

    ghost file = { λ o. overlay_file o.texts.now (T.file o.base.now) };

    ghost listed = { λ o. overlay_names o.texts.now (T.listed o.base.now) };

    ghost Kept = { List NamedText × (ℕ × T.Kept) };

    ghost kept = { λ o. (o.texts.now, (o.base.ghost_name, T.kept o.base.now)) };

    ghost holds = { λ a b same. same_overlay (first_same same)
        (T.holds a.base.now b.base.now (second_same (second_same same))) };

    ghost lists = { λ o. lists_overlay o.texts.now (T.lists o.base.now) };

    ghost asked = { λ o. o.asked.now };

    ghost failed_reads = { λ o. T.failed_reads o.base.now };

    fn names(&mut self, alloc: Global, limit: u64) -> Result<NamesEnd, TreeFault> {
        match self.base.names(alloc, limit)? {
            NamesEnd::Got(paths) => match merge(alloc, self.texts, paths, limit) {
                Ok(end) => Ok(end),
                Err(_) => Err(TreeFault::NoMemory),
            },
            NamesEnd::TooMany => Ok(NamesEnd::TooMany),
        }
    }

    fn read(&mut self, alloc: Global, path: &Text, limit: u64) -> Result<ReadEnd, TreeFault> {
        let Ok(()) = note(self.asked, alloc, path) else {
            return Err(TreeFault::NoMemory);
        };
        match self.texts.get(path.bytes()) {
            Some(text) => match read_text(alloc, text, limit) {
                Ok(end) => Ok(end),
                Err(_) => Err(TreeFault::NoMemory),
            },
            None => self.base.read(alloc, path, limit),
        }
    }

    fn forget(&mut self, alloc: Global) {
        *self.asked = TextList::new(alloc);
        self.base.forget(alloc);
    }
}

/// Adds a path at the end of the list of requested paths.
fn note(asked: &mut TextList, alloc: Global, path: &Text) -> Result<(), NoMemory>
    ensures asked { OnOk result (asked.new ≡ asked.old ++ path.now ∷ []) }
    ensures unchanged { OnErr result (asked.new ≡ asked.old) }
{
    asked.push(path.copy(alloc)?)
}
