// How a side begins: a byte that says whether it is live, the magic, the form, the generation, and the first commit byte.
ghost use Rattle.std.specs.Prelude.{◌≡◌, ℕ, ◌^◌, ◌<◌, ◌≤◌, ◌∷◌, List, [], length, take, min, All, Some, None, IfOk, IfSome, if◌then◌else◌};
ghost use Rattle.outside.specs.Disks.{Image};
ghost use Rattle.store_journal.specs.Payloads.{magic, is_live, generation_of, side_bytes};
ghost use Rattle.store_journal.specs.Forms.{found_form, has_form, older_counts};
ghost use Rattle.store_journal.specs.Headers.{header_in, headers_in, IsFoundLive};

use crate::Payloads;
use base::{NoMemory, Text};
use base_bytes::ByteWriter;
use outside::Side;
use std::alloc::Global;

/// Where the first commit byte stands.
pub const FIRST_COMMIT_BYTE: usize = 18;

/// What a live side says of itself: its generation, and the number of its bytes.
#[derive(Clone, Copy)]
pub struct Header {
    pub generation: u64,
    pub len: u64,
}

/// What each side says of itself that is live.
#[derive(Clone, Copy)]
pub struct Headers {
    pub a: Option<Header>,
    pub b: Option<Header>,
}

/// What the sides say of themselves, by two forms.
#[derive(Clone, Copy)]
pub struct FormHeaders {
    pub newer: Headers,
    pub older: Headers,
}

/// The side that counts, its generation, and the number of its bytes.
#[derive(Clone, Copy)]
pub struct Live {
    pub side: Side,
    pub generation: u64,
    pub len: u64,
}

/// What a live side of a form begins with.
fn magic_of(form: u8) -> [u8; 10]
    ensures { result ≡ magic form }
{
    [1, b'V', b'U', b'N', b'I', b'T', b'R', b'E', b'C', form]
}

/// The generation of a side, where it is live for a form.
#[tactic(auto, unfolding(crate::specs::Payloads::is_live, crate::specs::Payloads::generation_of))]
fn live_generation(form: u8, bytes: &[u8]) -> Option<u64>
    ensures { result ≡ (if is_live form bytes.now then Some (generation_of bytes.now) else None) }
{
    if bytes.len() <= FIRST_COMMIT_BYTE || &bytes[..10] != magic_of(form).as_slice() {
        return None;
    }
    Some(u64::from_le_bytes([
        bytes[10], bytes[11], bytes[12], bytes[13], bytes[14], bytes[15], bytes[16], bytes[17],
    ]))
}

/// What a side says of itself, by its length and its first 19 bytes, or all of them where there are fewer.
pub fn header_of(form: u8, len: u64, first: &[u8]) -> Option<Header>
    requires { length first.now ≡ min len 19 }
    ensures header { (bytes : List ℕ) →
        length bytes ≡ len → first.now ≡ take 19 bytes → result ≡ header_in form bytes }
    ensures long { IfSome result (λ live. 19 ≤ live.len) }
{
    match live_generation(form, first) {
        Some(generation) => Some(Header { generation, len }),
        None => None,
    }
}

/// Whether a side is live.
pub fn has_live(headers: Headers) -> bool
    ensures { (form : ℕ) → (image : Image) →
        headers ≡ headers_in form image → result ≡ has_form form image }
{
    match live_side(headers) {
        None => false,
        Some(_live) => true,
    }
}

/// Whether the older form alone is live.
pub fn is_older(headers: FormHeaders) -> bool
    ensures { (newer older : ℕ) → (image : Image) →
        headers.newer ≡ headers_in newer image →
        headers.older ≡ headers_in older image →
        result ≡ older_counts newer older image }
{
    let newer = has_live(headers.newer);
    let older = has_live(headers.older);
    !newer && older
}

/// The side that counts: the live one of the higher generation, and A where both have the same.
pub fn live_side(headers: Headers) -> Option<Live>
    ensures counts { (form : ℕ) → (image : Image) →
        headers ≡ headers_in form image → IsFoundLive form image result }
    ensures long { IfSome headers.a (λ live. 19 ≤ live.len) →
        IfSome headers.b (λ live. 19 ≤ live.len) → IfSome result (λ live. 19 ≤ live.len) }
{
    let Some(first) = headers.a else {
        let Some(second) = headers.b else {
            return None;
        };
        return Some(live_as(Side::B, second));
    };
    let Some(second) = headers.b else {
        return Some(live_as(Side::A, first));
    };
    if first.generation < second.generation {
        return Some(live_as(Side::B, second));
    }
    Some(live_as(Side::A, first))
}

/// The side that counts for the form that does.
pub fn found_side(headers: FormHeaders) -> Option<Live>
    ensures { (newer older : ℕ) → (image : Image) →
        headers.newer ≡ headers_in newer image →
        headers.older ≡ headers_in older image →
        IsFoundLive (found_form newer older image) image result }
{
    if is_older(headers) {
        return live_side(headers.older);
    }
    live_side(headers.newer)
}

/// A side that counts.
fn live_as(side: Side, header: Header) -> Live
    ensures { result
        ≡ record { side = side; generation = header.generation; len = header.len } }
{
    Live {
        side,
        generation: header.generation,
        len: header.len,
    }
}

/// The bytes of a side without payloads and of generation 1, but for the first, which is 1. It takes no memory.
#[tactic(auto, unfolding(crate::specs::Payloads::side_bytes, crate::specs::Payloads::header))]
pub fn empty_side(form: u8) -> [u8; 18]
    ensures { 1 ∷ result ≡ side_bytes form 1 [] }
{
    [
        b'V', b'U', b'N', b'I', b'T', b'R', b'E', b'C', form, 1, 0, 0, 0, 0, 0, 0, 0, 0,
    ]
}

/// The bytes of a side, but for the first, which is 1.
pub fn full_side(
    alloc: Global,
    form: u8,
    generation: u64,
    payloads: &Payloads,
) -> Result<Text, NoMemory>
    ensures bytes { IfOk result (λ bytes. 1 ∷ bytes ≡ side_bytes form generation payloads.now) }
    ensures small { IfOk result (λ _. All (λ payload. length payload < 2 ^ 32) payloads.now) }
{
    let mut out = ByteWriter::new(alloc);
    out.plain(&magic_of(form)[1..])?;
    out.u64(generation)?;
    for i in 0..payloads.len() {
        out.plain(&[1])?;
        out.text(payloads.get(i))?;
    }
    out.plain(&[0])?;
    Ok(out.into_text())
}
