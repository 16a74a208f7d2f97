//! Reading a payload as ranges of its bytes: nothing is copied.

ghost use Rattle.std.specs.Prelude.{◌≤◌, length, drop};
ghost use Rattle.base_bytes.specs.Reading.{ReadsAll};
ghost use Rattle.store_codec.specs.Forms.{product_in, request_in, request_payload_in};
ghost use Rattle.store_codec.specs.Ranges.{payload_in_ranges};

use base_bytes::{ByteRange, TextRange, numbers_range, ref_range, text_range, words_range};

/// A product: its library and path, and its artefact.
#[derive(Clone, Copy)]
pub struct ProductRanges {
    pub library: ByteRange,
    pub path: ByteRange,
    pub artefact: TextRange,
}

/// A record: its library and path, the words of its compiler with their number, its text, the numbers of the products that
/// it depends on with their number, and its artefact.
#[derive(Clone, Copy)]
pub struct RequestRanges {
    pub library: ByteRange,
    pub path: ByteRange,
    pub words: ByteRange,
    pub source: TextRange,
    pub deps: ByteRange,
    pub artefact: TextRange,
}

/// A payload.
#[derive(Clone, Copy)]
pub enum PayloadRanges {
    OfProduct(ProductRanges),
    OfRequest(RequestRanges),
}

/// A product, after its tag.
#[tactic(auto, unfolding(crate::specs::Forms::product_in, base_bytes::specs::Names::name_at))]
fn product_of(bytes: &[u8]) -> Option<PayloadRanges>
    requires { 1 ≤ length bytes.now }
    ensures { ReadsAll (payload_in_ranges bytes.now) result (product_in (drop 1 bytes.now)) }
{
    let library = text_range(bytes, 1)?;
    let path = text_range(bytes, library.start + library.count)?;
    let (artefact, end) = ref_range(bytes, path.start + path.count)?;
    if end < bytes.len() {
        return None;
    }
    Some(PayloadRanges::OfProduct(ProductRanges {
        library,
        path,
        artefact,
    }))
}

/// A record, after its tag.
#[tactic(auto, unfolding(crate::specs::Forms::request_in, base_bytes::specs::Names::name_at))]
fn request_of(bytes: &[u8]) -> Option<PayloadRanges>
    requires { 1 ≤ length bytes.now }
    ensures { ReadsAll (payload_in_ranges bytes.now) result (request_in (drop 1 bytes.now)) }
{
    let library = text_range(bytes, 1)?;
    let path = text_range(bytes, library.start + library.count)?;
    let words = words_range(bytes, path.start + path.count)?;
    let (source, next) = ref_range(bytes, words.start + words.count)?;
    let deps = numbers_range(bytes, next)?;
    let (artefact, end) = ref_range(bytes, deps.start + deps.count)?;
    if end < bytes.len() {
        return None;
    }
    Some(PayloadRanges::OfRequest(RequestRanges {
        library,
        path,
        words,
        source,
        deps,
        artefact,
    }))
}

/// What all of the bytes spell, as ranges of them; `None` where they spell no payload.
#[tactic(auto, unfolding(crate::specs::Forms::request_payload_in, crate::specs::Forms::request_payload_by))]
pub fn read_request_payload(bytes: &[u8]) -> Option<PayloadRanges>
    ensures { ReadsAll (payload_in_ranges bytes.now) result (request_payload_in bytes.now) }
{
    if bytes.is_empty() {
        return None;
    }
    match bytes[0] {
        0 => product_of(bytes),
        1 => request_of(bytes),
        _ => None,
    }
}
