//! The payloads that tests share.

use base::NoMemory;
use std::alloc::Global;
use store_journal::Payloads;

/// The file `a.vhd` of library `lib`, compiled by `cc`, with the new text `x` and the new artefact `y`.
pub(super) const A: [u8; 43] = [
    1, 3, 0, 0, 0, b'l', b'i', b'b', 5, 0, 0, 0, b'a', b'.', b'v', b'h', b'd', //
    1, 0, 0, 0, 2, 0, 0, 0, b'c', b'c', //
    1, 1, 0, 0, 0, b'x', 0, 0, 0, 0, 1, 1, 0, 0, 0, b'y',
];

/// The file `b.vhd` over product 0, with text 0 and the new artefact `z`.
pub(super) const B: [u8; 54] = [
    1, 3, 0, 0, 0, b'l', b'i', b'b', 5, 0, 0, 0, b'b', b'.', b'v', b'h', b'd', //
    1, 0, 0, 0, 2, 0, 0, 0, b'c', b'c', //
    0, 0, 0, 0, 0, 0, 0, 0, 0, //
    1, 0, 0, 0, 0, 0, 0, 0, 0, 0, 0, 0, //
    1, 1, 0, 0, 0, b'z',
];

/// The first file again, with the new text `w` and the artefact of number 1, which is the same.
pub(super) const SAME: [u8; 46] = [
    1, 3, 0, 0, 0, b'l', b'i', b'b', 5, 0, 0, 0, b'a', b'.', b'v', b'h', b'd', //
    1, 0, 0, 0, 2, 0, 0, 0, b'c', b'c', //
    1, 1, 0, 0, 0, b'w', 0, 0, 0, 0, 0, 1, 0, 0, 0, 0, 0, 0, 0,
];

/// The first file again, with the new text `w` and the new artefact `v`.
pub(super) const OTHER: [u8; 43] = [
    1, 3, 0, 0, 0, b'l', b'i', b'b', 5, 0, 0, 0, b'a', b'.', b'v', b'h', b'd', //
    1, 0, 0, 0, 2, 0, 0, 0, b'c', b'c', //
    1, 1, 0, 0, 0, b'w', 0, 0, 0, 0, 1, 1, 0, 0, 0, b'v',
];

/// The product of the first file with the new artefact `x`.
pub(super) const PRODUCT: [u8; 23] = [
    0, 3, 0, 0, 0, b'l', b'i', b'b', 5, 0, 0, 0, b'a', b'.', b'v', b'h', b'd', //
    1, 1, 0, 0, 0, b'x',
];

fn push(alloc: Global, opened: &mut Payloads, bytes: &[u8]) -> Result<(), NoMemory> {
    if bytes.len() < 100 && !bytes.is_empty() {
        opened.push(alloc, bytes)?;
    }
    Ok(())
}

/// Payloads of these bytes, of which empty ones are left out.
pub(super) fn open_payloads(
    alloc: Global,
    first: &[u8],
    second: &[u8],
    third: &[u8],
) -> Result<Payloads, NoMemory> {
    let mut opened = Payloads::new(alloc);
    push(alloc, &mut opened, first)?;
    push(alloc, &mut opened, second)?;
    push(alloc, &mut opened, third)?;
    Ok(opened)
}
