//! A plain reading of a store: of which files it has a record of what would be asked for them now.

use crate::parts::{are_meant, text_in};
use base::NoMemory;
use memory_outside::MemDisk;
use outside::Side;
use std::alloc::Global;

/// What a live side of form 3 begins with.
static MAGIC: [u8; 10] = [1, b'V', b'U', b'N', b'I', b'T', b'R', b'E', b'C', 3];

/// The files of a stage, in compile order.
pub(super) fn files_of(stage: u8) -> &'static [u8] {
    if stage == b'1' { b"pqrst" } else { b"pqrstb" }
}

/// The files that a file depends on: at most one.
fn uses(letter: u8) -> Option<u8> {
    match letter {
        b'q' | b'r' | b's' => Some(b'p'),
        _ => None,
    }
}

/// The artefact of a file in a stage, as the table of files has texts: a line for each unit and for each script line.
fn artefact_of(letter: u8, stage: u8) -> &'static str {
    match letter {
        b'p' if stage == b'1' => "unit package p~script note 1~",
        b'p' => "unit package p~script note 2~",
        b'q' => "unit package q~",
        b'r' => "unit package r~",
        b's' => "unit package s~",
        b't' => "unit package t~",
        _ => "unit entity b~unit architecture a of b~",
    }
}

fn byte(bytes: &[u8], at: usize) -> u8 {
    if at < bytes.len() { bytes[at] } else { 0 }
}

/// The number of four bytes from a place on.
fn number(bytes: &[u8], at: usize) -> usize {
    let four = [
        byte(bytes, at),
        byte(bytes, at.saturating_add(1)),
        byte(bytes, at.saturating_add(2)),
        byte(bytes, at.saturating_add(3)),
    ];
    u32::from_le_bytes(four) as usize
}

fn is_live(bytes: &[u8]) -> bool {
    bytes.len() >= 19 && bytes.starts_with(&MAGIC)
}

/// The side that counts.
fn counting(disk: &MemDisk) -> &[u8] {
    let a = disk.reads(Side::A);
    let b = disk.reads(Side::B);
    if is_live(b) && (!is_live(a) || number(b, 10) > number(a, 10)) {
        return b;
    }
    a
}

/// Where a text is in a side.
#[derive(Clone, Copy)]
struct Span {
    start: usize,
    end: usize,
}

/// The bytes of a text.
fn segment(side: &[u8], span: Span) -> &[u8] {
    if span.start <= span.end && span.end <= side.len() {
        &side[span.start..span.end]
    } else {
        &[]
    }
}

/// A file, and an artefact of it.
#[derive(Clone, Copy)]
struct Product {
    letter: u8,
    artefact: Span,
}

/// What was read so far: all texts and products, and a bit for each file whose latest record is of what would be asked now.
#[derive(Drop)]
struct Read {
    texts: Vec<Span>,
    products: Vec<Product>,
    recorded: u8,
}

/// A text, and where what follows it begins.
#[derive(Clone, Copy)]
struct Taken {
    span: Span,
    next: usize,
}

/// Takes up a new text.
fn take_new(texts: &mut Vec<Span>, side: &[u8], at: usize) -> Result<Taken, NoMemory> {
    let start = at.saturating_add(5);
    let end = start.saturating_add(number(side, at.saturating_add(1)));
    let span = Span { start, end };
    texts.push(span)?;
    Ok(Taken { span, next: end })
}

/// The text of a number.
fn text_at(texts: &[Span], number: usize) -> Span {
    if number < texts.len() {
        texts[number]
    } else {
        Span { start: 0, end: 0 }
    }
}

/// Takes up a text, which is new or there by its number.
fn take_text(texts: &mut Vec<Span>, side: &[u8], at: usize) -> Result<Taken, NoMemory> {
    if byte(side, at) == 1 {
        return take_new(texts, side, at);
    }
    Ok(Taken {
        span: text_at(texts.as_slice(), number(side, at.saturating_add(1))),
        next: at.saturating_add(9),
    })
}

/// Whether the product of a number is there, of this file and this artefact.
fn is_product(side: &[u8], product: Product, letter: u8, artefact: &[u8]) -> bool {
    product.letter == letter && segment(side, product.artefact) == artefact
}

/// Adds a product that isn't there yet.
fn add_product(
    products: &mut Vec<Product>,
    side: &[u8],
    letter: u8,
    artefact: Span,
) -> Result<(), NoMemory> {
    for product in products.as_slice() {
        if is_product(side, *product, letter, segment(side, artefact)) {
            return Ok(());
        }
    }
    products.push(Product { letter, artefact })?;
    Ok(())
}

/// Whether the product of a number is that of a file in a stage.
fn is_current(products: &[Product], side: &[u8], number: usize, letter: u8, stage: u8) -> bool {
    if number >= products.len() {
        return false;
    }
    let product = products[number];
    product.letter == letter
        && are_meant(
            segment(side, product.artefact),
            artefact_of(letter, stage),
            stage,
        )
}

/// Whether the products from a place on are those of the files that a file depends on, in a stage.
fn are_current(products: &[Product], side: &[u8], at: usize, letter: u8, stage: u8) -> bool {
    let count = number(side, at);
    match uses(letter) {
        None => count == 0,
        Some(other) => {
            count == 1
                && is_current(
                    products,
                    side,
                    number(side, at.saturating_add(4)),
                    other,
                    stage,
                )
        }
    }
}

/// The bit of a file.
fn bit(letter: u8) -> u8 {
    match letter {
        b'p' => 1,
        b'q' => 2,
        b'r' => 4,
        b's' => 8,
        b't' => 16,
        b'b' => 32,
        _ => 0,
    }
}

/// Takes up a product alone.
fn take_product(read: &mut Read, side: &[u8], at: usize) -> Result<(), NoMemory> {
    let letter = byte(side, at.saturating_add(12));
    let artefact = take_text(&mut read.texts, side, at.saturating_add(17))?;
    add_product(&mut read.products, side, letter, artefact.span)
}

/// Takes up a record: after its name and its two words, of 30 bytes, come its text, products and artefact.
fn take_record(read: &mut Read, side: &[u8], at: usize, stage: u8) -> Result<(), NoMemory> {
    let letter = byte(side, at.saturating_add(12));
    let text = take_text(&mut read.texts, side, at.saturating_add(47))?;
    let is_text = are_meant(segment(side, text.span), text_in(letter, stage), stage);
    let are_all = are_current(read.products.as_slice(), side, text.next, letter, stage);
    let deps = number(side, text.next).saturating_mul(8);
    let after = text.next.saturating_add(4).saturating_add(deps);
    let artefact = take_text(&mut read.texts, side, after)?;
    add_product(&mut read.products, side, letter, artefact.span)?;
    if is_text && are_all {
        read.recorded |= bit(letter);
    } else {
        read.recorded &= !bit(letter);
    }
    Ok(())
}

/// Takes up the payload that begins at a place.
fn take(read: &mut Read, side: &[u8], at: usize, stage: u8) -> Result<(), NoMemory> {
    if byte(side, at) == 0 {
        return take_product(read, side, at);
    }
    take_record(read, side, at, stage)
}

/// Takes up all payloads of a side.
fn take_all(read: &mut Read, side: &[u8], stage: u8) -> Result<(), NoMemory> {
    let mut at = 18usize;
    for _step in 0..64u32 {
        let start = at.saturating_add(5);
        let end = start.saturating_add(number(side, at.saturating_add(1)));
        if byte(side, at) != 1 || end >= side.len() || start > end {
            break;
        }
        take(read, side, start, stage)?;
        at = end;
    }
    Ok(())
}

/// A bit for each file of which a disk has a record of what would be asked for it now.
fn recorded_on(alloc: Global, disk: &MemDisk, stage: u8) -> Result<u8, NoMemory> {
    let side = counting(disk);
    let mut read = Read {
        texts: Vec::new(alloc),
        products: Vec::new(alloc),
        recorded: 0,
    };
    if is_live(side) {
        take_all(&mut read, side, stage)?;
    }
    Ok(read.recorded)
}

/// The files of which a disk has no record of what would be asked for them now, in compile order. In each stage the artefact of
/// a file is the same whenever it is compiled, so these are the files that a build compiles.
pub(super) fn stale_on(alloc: Global, disk: &MemDisk, stage: u8) -> Result<Vec<u8>, NoMemory> {
    let recorded = recorded_on(alloc, disk, stage)?;
    let mut stale = Vec::new(alloc);
    for letter in files_of(stage) {
        if recorded & bit(*letter) == 0 {
            stale.push(*letter)?;
        }
    }
    Ok(stale)
}
