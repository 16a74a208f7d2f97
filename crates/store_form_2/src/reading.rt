//! Reading a payload as spans of its bytes: nothing is copied.

ghost use Rattle.std.specs.Prelude.{◌≤◌, length, drop};
ghost use Rattle.base_bytes.specs.Reading.{ReadsAll};
ghost use Rattle.base_bytes.specs.Ranges.{IsReadAt};
ghost use Rattle.store_form_2.specs.Forms.{draft_at, of_node_in, of_draft_in, draft_alone_in, node_payload_in};
ghost use Rattle.store_form_2.specs.Spans.{draft_in, payload_in_spans};

use base_bytes::{
    ByteRange, TextRange, number_range, numbers_range, ref_range, text_range, words_range,
};

/// A new node: its library and path, the words of its compiler with their number, its text, and the numbers of the nodes
/// that it depends on with their number.
#[derive(Clone, Copy)]
pub struct DraftSpans {
    pub library: ByteRange,
    pub path: ByteRange,
    pub words: ByteRange,
    pub source: TextRange,
    pub deps: ByteRange,
}

/// A payload.
#[derive(Clone, Copy)]
pub enum PayloadSpans {
    OfNode(u64, ByteRange),
    OfDraft(DraftSpans, ByteRange),
    DraftAlone(DraftSpans),
}

/// A new node, from an offset on.
#[tactic(auto, unfolding(crate::specs::Forms::draft_at, base_bytes::specs::Names::name_at))]
fn draft_span(bytes: &[u8], at: usize) -> Option<(DraftSpans, usize)>
    requires { at ≤ length bytes.now }
    ensures { IsReadAt at (draft_in bytes.now) bytes.now result (draft_at (drop at bytes.now)) }
{
    let library = text_range(bytes, at)?;
    let path = text_range(bytes, library.start + library.count)?;
    let words = words_range(bytes, path.start + path.count)?;
    let (source, next) = ref_range(bytes, words.start + words.count)?;
    let deps = numbers_range(bytes, next)?;
    let draft = DraftSpans {
        library,
        path,
        words,
        source,
        deps,
    };
    Some((draft, deps.start + deps.count))
}

/// One more record of a node, behind its tag.
#[tactic(auto, unfolding(crate::specs::Forms::of_node_in))]
fn of_node(bytes: &[u8]) -> Option<PayloadSpans>
    requires { 1 ≤ length bytes.now }
    ensures { ReadsAll (payload_in_spans bytes.now) result (of_node_in (drop 1 bytes.now)) }
{
    let (number, next) = number_range(bytes, 1)?;
    let artefact = text_range(bytes, next)?;
    if artefact.start + artefact.count < bytes.len() {
        return None;
    }
    Some(PayloadSpans::OfNode(number, artefact))
}

/// A new node and its record, behind their tag.
#[tactic(auto, unfolding(crate::specs::Forms::of_draft_in))]
fn of_draft(bytes: &[u8]) -> Option<PayloadSpans>
    requires { 1 ≤ length bytes.now }
    ensures { ReadsAll (payload_in_spans bytes.now) result (of_draft_in (drop 1 bytes.now)) }
{
    let (draft, next) = draft_span(bytes, 1)?;
    let artefact = text_range(bytes, next)?;
    if artefact.start + artefact.count < bytes.len() {
        return None;
    }
    Some(PayloadSpans::OfDraft(draft, artefact))
}

/// A new node alone, behind its tag.
#[tactic(auto, unfolding(crate::specs::Forms::draft_alone_in))]
fn draft_alone(bytes: &[u8]) -> Option<PayloadSpans>
    requires { 1 ≤ length bytes.now }
    ensures { ReadsAll (payload_in_spans bytes.now) result (draft_alone_in (drop 1 bytes.now)) }
{
    let (draft, next) = draft_span(bytes, 1)?;
    if next < bytes.len() {
        return None;
    }
    Some(PayloadSpans::DraftAlone(draft))
}

/// What all of the bytes spell, as spans of them; `None` where they spell no payload.
#[tactic(auto, unfolding(crate::specs::Forms::node_payload_in, crate::specs::Forms::node_payload_by))]
pub fn read_payload(bytes: &[u8]) -> Option<PayloadSpans>
    ensures { ReadsAll (payload_in_spans bytes.now) result (node_payload_in bytes.now) }
{
    if bytes.is_empty() {
        return None;
    }
    match bytes[0] {
        0 => of_node(bytes),
        1 => of_draft(bytes),
        2 => draft_alone(bytes),
        _ => None,
    }
}
