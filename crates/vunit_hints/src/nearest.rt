//! The nearest of some names.

use base::NoMemory;
use std::alloc::Global;
use strsim::osa_distance;

/// The bytes of a word that is compared: a longer one is like no name.
const WORD_LIMIT: usize = 64;

/// The name that a word is like: one in three of its letters may differ, be missing, stand too much or be swapped. Of two
/// that are as near it is the first.
pub fn nearest_name(
    alloc: Global,
    word: &str,
    names: &[&'static str],
) -> Result<Option<&'static str>, NoMemory> {
    if word.len() > WORD_LIMIT {
        return Ok(None);
    }
    let mut best = None;
    let mut least = word.len().div_ceil(3) + 1;
    for name in names {
        let distance = osa_distance(alloc, word, name)?;
        if distance < least {
            least = distance;
            best = Some(*name);
        }
    }
    Ok(best)
}
