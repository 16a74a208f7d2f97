//! The tokens of a text with their bytes.

use base::{NoMemory, OrMemory, RoleList, TEXT_LIMIT, TokenKind};
use std::alloc::Global;
use vhdl_lex::{no_tokens, scan_with_roles};

/// A token: its bytes, in lower case where it is a word, and its offset.
#[derive(Drop)]
pub struct Word {
    pub text: Vec<u8>,
    pub at: usize,
}

/// The tokens of a text; none where it has a fault.
pub fn words_of(alloc: Global, text: &[u8]) -> Result<Vec<Word>, NoMemory> {
    let mut words = Vec::new(alloc);
    if text.len() > TEXT_LIMIT {
        return Ok(words);
    }
    // (the program then has one copy of the scanner)
    let mut roles = RoleList::new(alloc);
    let tokens = match scan_with_roles(alloc, text, &mut roles, no_tokens(alloc)) {
        Ok(tokens) => tokens,
        Err(OrMemory::NoMemory) => return Err(NoMemory),
        Err(OrMemory::Fault(_)) => return Ok(words),
    };
    for token in tokens.list.as_slice() {
        let at = token.start as usize;
        let bytes = text.get(at..token.end as usize).unwrap_or(b"");
        let text = match token.kind {
            TokenKind::Word => lower_case(alloc, bytes)?,
            TokenKind::Str | TokenKind::Number => Vec::new(alloc),
            _ => Vec::from_slice(alloc, bytes)?,
        };
        words.push(Word { text, at })?;
    }
    Ok(words)
}

fn lower_case(alloc: Global, bytes: &[u8]) -> Result<Vec<u8>, NoMemory> {
    let mut lower = Vec::new(alloc);
    for byte in bytes {
        lower.push(byte.to_ascii_lowercase())?;
    }
    Ok(lower)
}
