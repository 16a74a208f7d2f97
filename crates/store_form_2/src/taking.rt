//! Taking up payloads, one after the other.

ghost use Rattle.std.specs.Prelude.{◌≡◌, ◌<◌, ◌≤◌, ◌++◌, ◌∷◌, [], true, length, map, IfOk, OnOk};
ghost use Rattle.base.specs.declared.limits.TheConstants.{ARTEFACT_LIMIT};
ghost use Rattle.store_form_2.specs.Nodes.{AreNodes, numbered_text};
ghost use Rattle.store_form_2.specs.Forms.NodePayload.{OfDraft, OfNode};
ghost use Rattle.store_form_2.specs.NodeContents.{is_artefact, contents_of, source_number, with_node_record, with_payload};
ghost use Rattle.base_bytes.specs.TextRefs.{is_text_ref, with_text, ref_in_range};
ghost use Rattle.store_form_2.specs.Spans.{draft_in};
ghost use Rattle.base_bytes.specs.Ranges.{ranged};
ghost use Rattle.store_form_2.specs.Locations.{AreTexts, HasRecordRoom, IsContents, payload_at, contents_in, texts_in};
ghost use Rattle.store_form_2.specs.Drafts.{HasMoreNames};
ghost use Rattle.store_form_2.specs.Taking.{TextsAre, TookDraft, TookNode, TookUp};

use crate::drafts::new_row;
use crate::{
    ContentsLocations, DraftSpans, NodeCheck, NodeTable, PayloadSpans, RecordLocation, Segments,
    TextLocation, TextLocations, read_payload, text_at,
};
use base::{ARTEFACT_LIMIT, NoMemory};
use base_bytes::{ByteRange, TextRange, bytes_in};
use base_collections::fingerprint_of;
use std::alloc::Global;

/// The number of bytes of a text that is there.
fn known_len(segments: &Segments, texts: &TextLocations, number: usize) -> usize
    requires texts { AreTexts segments.now.payloads texts.now }
    requires there { number < length texts.now.locations.items }
    ensures { result ≡ length (numbered_text (texts_in segments.now.payloads texts.now) number) }
{
    text_at(segments, texts.locations[number]).len()
}

/// The number of bytes of the text of a draft.
fn source_len(segments: &Segments, texts: &TextLocations, bytes: &[u8], source: TextRange) -> usize
    requires texts { AreTexts segments.now.payloads texts.now }
    requires source { is_text_ref (texts_in segments.now.payloads texts.now)
        (ref_in_range bytes.now source)
        ≡ true }
    ensures { let texts = texts_in segments.now.payloads texts.now in
        let source = ref_in_range bytes.now source in
        result ≡ length (numbered_text (with_text texts source) (source_number texts source)) }
{
    match source {
        TextRange::Known(number) => known_len(segments, texts, number as usize),
        TextRange::Full(span) => bytes_in(bytes, span).len(),
    }
}

/// Adds a new text, which is in a payload.
fn add_text(
    texts: &mut TextLocations,
    test: &mut NodeCheck,
    segments: &Segments,
    at: usize,
    span: ByteRange,
) -> Result<(), NoMemory>
    requires at { at < length segments.now.payloads }
    requires texts { AreTexts segments.now.payloads texts.old }
    requires lengths { map length (texts_in segments.now.payloads texts.old) ≡ test.old }
    ensures { OnOk result
        (TextsAre segments.now.payloads texts.new test.new
        (texts_in segments.now.payloads texts.old
        ++ ranged (payload_at segments.now.payloads at) span ∷ [])) }
{
    let location = TextLocation { payload: at, span };
    let text = text_at(segments, location);
    texts.reserve()?;
    texts.put(location, fingerprint_of(text));
    test.add_text(text.len())?;
    Ok(())
}

/// Adds the text of a draft, where it is new.
fn add_source(
    texts: &mut TextLocations,
    test: &mut NodeCheck,
    segments: &Segments,
    at: usize,
    source: TextRange,
) -> Result<(), NoMemory>
    requires at { at < length segments.now.payloads }
    requires texts { AreTexts segments.now.payloads texts.old }
    requires lengths { map length (texts_in segments.now.payloads texts.old) ≡ test.old }
    ensures { OnOk result
        (TextsAre segments.now.payloads texts.new test.new
        (with_text (texts_in segments.now.payloads texts.old)
        (ref_in_range (payload_at segments.now.payloads at) source))) }
{
    match source {
        TextRange::Known(_number) => Ok(()),
        TextRange::Full(span) => add_text(texts, test, segments, at, span),
    }
}

/// Takes up a draft, where it is one: its text is added if it is new, and its node.
fn take_draft(
    alloc: Global,
    table: &mut NodeTable,
    texts: &mut TextLocations,
    test: &mut NodeCheck,
    segments: &Segments,
    at: usize,
    draft: DraftSpans,
) -> Result<bool, NoMemory>
    requires at { at < length segments.now.payloads }
    requires texts { AreTexts segments.now.payloads texts.old }
    requires lengths { map length (texts_in segments.now.payloads texts.old) ≡ test.old }
    requires nodes { AreNodes (texts_in segments.now.payloads texts.old) table.old.nodes }
    ensures took { let draft = draft_in (payload_at segments.now.payloads at) draft in
        IfOk result
        (TookDraft segments.now.payloads (texts_in segments.now.payloads texts.old) table.old.nodes
        texts.new table.new.nodes test.new draft) }
    ensures names { HasMoreNames table.old.names table.new.names }
{
    let bytes = segments.get(at);
    let Some(row) = new_row(alloc, table, segments, texts, bytes, draft)? else {
        return Ok(false);
    };
    let own = source_len(segments, texts, bytes, draft.source);
    let fits = test.is_current(table, &row, own)?;
    if !fits {
        return Ok(false);
    }
    add_source(texts, test, segments, at, draft.source)?;
    table.reserve()?;
    table.put(row);
    Ok(true)
}

/// Puts a record of a node, whose artefact is in a payload, at the end.
fn put_record(
    contents: &mut ContentsLocations,
    segments: &Segments,
    node: usize,
    at: usize,
    artefact: ByteRange,
)
    requires room { HasRecordRoom contents.old.records }
    requires node { node < length contents.old.table.nodes }
    requires at { at < length segments.now.payloads }
    requires small { length (ranged (payload_at segments.now.payloads at) artefact)
        ≤ ARTEFACT_LIMIT }
    requires contents { IsContents segments.now.payloads contents.old }
    ensures are { IsContents segments.now.payloads contents.new }
    ensures is { contents_in segments.now.payloads contents.new
        ≡ with_node_record (contents_in segments.now.payloads contents.old) node
        (ranged (payload_at segments.now.payloads at) artefact) }
    ensures table { contents.new.table ≡ contents.old.table }
    ensures texts { contents.new.texts ≡ contents.old.texts }
{
    let name = contents.table.row(node).name;
    contents.records.put(
        RecordLocation {
            node,
            payload: at,
            artefact,
        },
        name,
    );
}

/// Adds a record of a node, whose artefact is in a payload. The other records are unchanged.
fn add_record(
    contents: &mut ContentsLocations,
    segments: &Segments,
    node: usize,
    at: usize,
    artefact: ByteRange,
) -> Result<(), NoMemory>
    requires node { node < length contents.old.table.nodes }
    requires at { at < length segments.now.payloads }
    requires small { length (ranged (payload_at segments.now.payloads at) artefact)
        ≤ ARTEFACT_LIMIT }
    requires contents { IsContents segments.now.payloads contents.old }
    ensures are { OnOk result (IsContents segments.now.payloads contents.new) }
    ensures is { OnOk result
        (contents_in segments.now.payloads contents.new
        ≡ with_node_record (contents_in segments.now.payloads contents.old) node
        (ranged (payload_at segments.now.payloads at) artefact)) }
    ensures texts { contents.new.texts ≡ contents.old.texts }
{
    contents.records.reserve()?;
    put_record(contents, segments, node, at, artefact);
    Ok(())
}

/// Whether an artefact in a payload is small enough for a record.
fn is_artefact(bytes: &[u8], artefact: ByteRange) -> bool
    ensures { result ≡ is_artefact (ranged bytes.now artefact) }
{
    bytes_in(bytes, artefact).len() <= ARTEFACT_LIMIT
}

/// Takes up one more record of a node that is there.
fn take_record(
    contents: &mut ContentsLocations,
    segments: &Segments,
    at: usize,
    number: u64,
    artefact: ByteRange,
) -> Result<(), NoMemory>
    requires at { at < length segments.now.payloads }
    requires contents { IsContents segments.now.payloads contents.old }
    ensures are { OnOk result (IsContents segments.now.payloads contents.new) }
    ensures is { OnOk result
        (contents_in segments.now.payloads contents.new
        ≡ with_payload (contents_in segments.now.payloads contents.old)
        (OfNode number (ranged (payload_at segments.now.payloads at) artefact))) }
    ensures texts { contents.new.texts ≡ contents.old.texts }
{
    if number >= contents.table.len() as u64 {
        return Ok(());
    }
    if !is_artefact(segments.get(at), artefact) {
        return Ok(());
    }
    add_record(contents, segments, number as usize, at, artefact)
}

/// Takes up a draft on a contents, where it is one, and says whether it was.
fn take_node(
    alloc: Global,
    contents: &mut ContentsLocations,
    test: &mut NodeCheck,
    segments: &Segments,
    at: usize,
    draft: DraftSpans,
) -> Result<bool, NoMemory>
    requires at { at < length segments.now.payloads }
    requires contents { IsContents segments.now.payloads contents.old }
    requires lengths { map length (texts_in segments.now.payloads contents.old.texts) ≡ test.old }
    requires nodes { AreNodes (texts_in segments.now.payloads contents.old.texts)
        contents.old.table.nodes }
    ensures { IfOk result
        (TookNode segments.now.payloads contents.old contents.new test.new
        (draft_in (payload_at segments.now.payloads at) draft)) }
{
    take_draft(
        alloc,
        &mut contents.table,
        &mut contents.texts,
        test,
        segments,
        at,
        draft,
    )
}

/// Takes up a draft and its record, where it is one and its artefact is small enough.
fn take_both(
    alloc: Global,
    contents: &mut ContentsLocations,
    test: &mut NodeCheck,
    segments: &Segments,
    at: usize,
    draft: DraftSpans,
    artefact: ByteRange,
) -> Result<(), NoMemory>
    requires at { at < length segments.now.payloads }
    requires contents { IsContents segments.now.payloads contents.old }
    requires lengths { map length (texts_in segments.now.payloads contents.old.texts) ≡ test.old }
    requires nodes { AreNodes (texts_in segments.now.payloads contents.old.texts)
        contents.old.table.nodes }
    ensures are { OnOk result (IsContents segments.now.payloads contents.new) }
    ensures is { OnOk result
        (contents_in segments.now.payloads contents.new
        ≡ with_payload (contents_in segments.now.payloads contents.old)
        (OfDraft (draft_in (payload_at segments.now.payloads at) draft)
        (ranged (payload_at segments.now.payloads at) artefact))) }
    ensures lengths { OnOk result
        (map length (texts_in segments.now.payloads contents.new.texts) ≡ test.new) }
{
    if !is_artefact(segments.get(at), artefact) {
        return Ok(());
    }
    let number = contents.table.len();
    let taken = take_node(alloc, contents, test, segments, at, draft)?;
    if !taken {
        return Ok(());
    }
    add_record(contents, segments, number, at, artefact)?;
    Ok(())
}

/// Takes up a payload.
fn take_up(
    alloc: Global,
    contents: &mut ContentsLocations,
    test: &mut NodeCheck,
    segments: &Segments,
    at: usize,
) -> Result<(), NoMemory>
    requires at { at < length segments.now.payloads }
    requires contents { IsContents segments.now.payloads contents.old }
    requires lengths { map length (texts_in segments.now.payloads contents.old.texts) ≡ test.old }
    requires nodes { AreNodes (texts_in segments.now.payloads contents.old.texts)
        contents.old.table.nodes }
    ensures { OnOk result
        (TookUp segments.now.payloads contents.old contents.new test.new
        (payload_at segments.now.payloads at)) }
{
    match read_payload(segments.get(at)) {
        Some(PayloadSpans::OfNode(number, artefact)) => {
            take_record(contents, segments, at, number, artefact)?;
            Ok(())
        }
        Some(PayloadSpans::OfDraft(draft, artefact)) => {
            take_both(alloc, contents, test, segments, at, draft, artefact)?;
            Ok(())
        }
        Some(PayloadSpans::DraftAlone(draft)) => {
            let _taken = take_node(alloc, contents, test, segments, at, draft)?;
            Ok(())
        }
        None => Ok(()),
    }
}

/// What payloads stand for, taken up one after the other.
pub fn contents_of(alloc: Global, segments: &Segments) -> Result<ContentsLocations, NoMemory>
    ensures are { IfOk result (IsContents segments.now.payloads) }
    ensures is { IfOk result
        (λ contents. contents_in segments.now.payloads contents ≡ contents_of segments.now.payloads) }
{
    let mut contents = ContentsLocations::new(alloc);
    let mut test = NodeCheck::new(alloc);
    for at in 0..segments.len() {
        take_up(alloc, &mut contents, &mut test, segments, at)?;
    }
    Ok(contents)
}
