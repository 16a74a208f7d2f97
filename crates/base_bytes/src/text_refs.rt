//! Texts that a payload has by their number or in full.

ghost use Rattle.std.specs.Prelude.{◌≤◌, length, drop};
ghost use Rattle.base_bytes.specs.Ranges.{IsReadAt};
ghost use Rattle.base_bytes.specs.TextRefs.{ref_by_number_at, ref_in_full_at, text_ref_at, ref_in_range};

use crate::ByteRange;
use crate::reading::{byte_range, number_range, text_range};

/// A text: one that is there by its number, or a new one.
#[derive(Clone, Copy)]
pub enum TextRange {
    Known(u64),
    Full(ByteRange),
}

/// A text by its number, from an offset on.
#[tactic(auto, unfolding(crate::specs::TextRefs::ref_by_number_at))]
fn known_range(bytes: &[u8], at: usize) -> Option<(TextRange, usize)>
    requires { at ≤ length bytes.now }
    ensures { IsReadAt at (ref_in_range bytes.now) bytes.now result
        (ref_by_number_at (drop at bytes.now)) }
{
    let Some((number, next)) = number_range(bytes, at) else {
        return None;
    };
    Some((TextRange::Known(number), next))
}

/// A new text, from an offset on.
#[tactic(auto, unfolding(crate::specs::TextRefs::ref_in_full_at))]
fn full_range(bytes: &[u8], at: usize) -> Option<(TextRange, usize)>
    requires { at ≤ length bytes.now }
    ensures { IsReadAt at (ref_in_range bytes.now) bytes.now result
        (ref_in_full_at (drop at bytes.now)) }
{
    let Some(text) = text_range(bytes, at) else {
        return None;
    };
    Some((TextRange::Full(text), text.start + text.count))
}

/// A text that is there or new, from an offset on.
#[tactic(auto, unfolding(crate::specs::TextRefs::text_ref_at, crate::specs::TextRefs::text_ref_by, crate::specs::TextRefs::ref_by_number_at, crate::specs::TextRefs::ref_in_full_at))]
pub fn ref_range(bytes: &[u8], at: usize) -> Option<(TextRange, usize)>
    requires { at ≤ length bytes.now }
    ensures { IsReadAt at (ref_in_range bytes.now) bytes.now result
        (text_ref_at (drop at bytes.now)) }
{
    let (tag, next) = byte_range(bytes, at)?;
    match tag {
        0 => known_range(bytes, next),
        1 => full_range(bytes, next),
        _ => None,
    }
}
