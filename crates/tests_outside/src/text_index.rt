//! Tests of what no clause says: that texts are put in, and found by one walk.

use base_collections::{Split, TextIndex, split_between};
use std::test::Fail;

/// Texts of one length that differ in one byte, of other lengths, and of zeros alone.
static TEXTS: [&[u8]; 8] = [
    b"counter 00",
    b"counter 01",
    b"counter 10",
    b"counter",
    b"",
    b"\0",
    b"\0\0",
    b"dounter 00",
];

/// Puts a text in, where the text that it comes to is another one.
fn add(index: &mut TextIndex, text: &[u8]) -> Result<(), Fail> {
    index.reserve(1)?;
    if index.len() == 0 {
        index.put(Split {
            of: 0,
            point: 0,
            value: 16,
        });
        return Ok(());
    }
    let of = index.candidate(text);
    let Some(old) = TEXTS.get(of) else {
        return Err(Fail::from("there are so many texts"));
    };
    if *old == text {
        return Err(Fail::from("a new text comes to itself"));
    }
    index.put(split_between(of, old, text));
    Ok(())
}

#[test]
fn each_text_comes_to_its_number(rt: HostRuntime) -> Result<(), Fail> {
    let mut index = TextIndex::new(rt.alloc());
    for text in &TEXTS {
        add(&mut index, text)?;
    }
    for number in 0..TEXTS.len() {
        if index.len() == 0 {
            return Err(Fail::from("there are texts"));
        }
        assert!(rt; index.candidate(TEXTS[number]) == number);
    }
    Ok(())
}
