//! Tables of small texts, their tokens written out by hand from the grammar, and large hostile texts.

use crate::tests::tables::{expand_lines, halves};
use base::{LexFault, OrMemory, Role, RoleList, TokenKind, Tokens};
use std::alloc::Global;
use std::process::Abort;
use std::test::Fail;
use vhdl_lex::{no_tokens, scan_with_roles};

/// A letter for the kind of a token.
fn letter(kind: TokenKind) -> u8 {
    match kind {
        TokenKind::Word => b'w',
        TokenKind::Extended => b'e',
        TokenKind::Number => b'n',
        TokenKind::Str => b's',
        TokenKind::Char => b'c',
        TokenKind::Tick => b't',
        TokenKind::Symbol => b'y',
        TokenKind::High => b'h',
    }
}

/// The bytes of a text between two indices, and a bar.
fn put_part(out: &mut Vec<u8>, text: &[u8], start: u32, end: u32) -> Result<(), Fail> {
    let part = text
        .get(start as usize..end as usize)
        .ok_or("within the text")?;
    out.extend_from_slice(part)?;
    out.push(b'|')?;
    Ok(())
}

/// Each token as its letter and its bytes, then each comment after a `#`.
fn text_of_tokens(alloc: Global, text: &[u8], tokens: &Tokens) -> Result<Vec<u8>, Fail> {
    let mut out = Vec::new(alloc);
    for token in tokens.list.as_slice() {
        out.push(letter(token.kind))?;
        put_part(&mut out, text, token.start, token.end)?;
    }
    for comment in tokens.comments.as_slice() {
        out.push(b'#')?;
        put_part(&mut out, text, comment.start, comment.end)?;
    }
    Ok(out)
}

fn fault_written(alloc: Global, fault: LexFault) -> Result<Vec<u8>, Fail> {
    match fault {
        LexFault::UnclosedString { at } => Ok(format!(in alloc; "string@{at}")?.into_bytes()),
        LexFault::UnclosedExtended { at } => Ok(format!(in alloc; "extended@{at}")?.into_bytes()),
        LexFault::UnclosedComment { at } => Ok(format!(in alloc; "comment@{at}")?.into_bytes()),
    }
}

fn text_of_scan(alloc: Global, text: &[u8]) -> Result<Vec<u8>, Fail> {
    if text.len() > 4_194_304 {
        return Err(Fail::from("a small text"));
    }
    match scan_with_roles(alloc, text, &mut RoleList::new(alloc), no_tokens(alloc)) {
        Ok(tokens) => text_of_tokens(alloc, text, &tokens),
        Err(OrMemory::Fault(fault)) => fault_written(alloc, fault),
        Err(OrMemory::NoMemory) => Err(Fail::from("out of memory")),
    }
}

/// Whether of the text of a row is found what stands there.
fn is_right(alloc: Global, row: &[u8]) -> Result<bool, Fail> {
    let (text, wanted) = halves(row);
    let text = expand_lines(alloc, text)?;
    let wanted = expand_lines(alloc, wanted)?;
    Ok(text_of_scan(alloc, &text)?.as_slice() == wanted.as_slice())
}

fn check(rt: &impl Abort, alloc: Global, table: &[u8]) -> Result<(), Fail> {
    for row in table.split(|b| *b == b'\n') {
        if !row.is_empty() {
            assert!(rt; is_right(alloc, row)?, "{row:?}");
        }
    }
    Ok(())
}

static WORDS_NUMBERS_AND_SYMBOLS: &[u8] = b"
^
x^wx|
a_1b^wa_1b|
_a^y_|wa|
1_000.5e3^n1_000.5e3|
16#FF#e1^n16#FF#e1|
1e-3^n1e|y-|n3|
2#1.0#^n2#1.0#|
1a^n1a|
a.b^wa|y.|wb|
a1#^wa1|y#|
:=**^y:|y=|y*|y*|
?/=^y?|y/|y=|
%1%^y%|n1|y%|
/ *^y/|y*|
/^y/|
- -^y-|y-|
\0\x08\x7f^y\0|y\x08|y\x7f|
\xc3\xa9^h\xc3|h\xa9|
a\x80b^wa|h\x80|wb|
";

#[test]
fn words_numbers_and_symbols(rt: HostRuntime) -> Result<(), Fail> {
    check(&rt, rt.alloc(), WORDS_NUMBERS_AND_SYMBOLS)
}

static GAPS: &[u8] = b"
\t~\x0b\x0c\r ^
 a\r~b ^wa|wb|
\xef\xbb\xbfa^wa|
a\xef\xbb\xbf^wa|h\xef|h\xbb|h\xbf|
\xef\xbba^h\xef|h\xbb|wa|
\xef\xbb\xbf\xef\xbb\xbf^h\xef|h\xbb|h\xbf|
`protect begin~a^wa|
`^
a`b\rc^wa|wc|
`\"\x0ba^wa|
";

#[test]
fn gaps(rt: HostRuntime) -> Result<(), Fail> {
    check(&rt, rt.alloc(), GAPS)
}

static COMMENTS: &[u8] = b"
-- a^#-- a|
--^#--|
---^#---|
a -- b~c^wa|wc|#-- b|
--a\x0bb^wb|#--a|
--a\x0cb^wb|#--a|
--a\rb^wb|#--a|
--a--b~--c^#--a--b|#--c|
-- \"~x^wx|#-- \"|
--\xe9^#--\xe9|
/**/a^wa|
/***/a^wa|
/* -- */ a^wa|
/* /* */ a */^wa|y*|y/|
/*~*/a^wa|
/*/ */a^wa|
-- /*~a^wa|#-- /*|
/*/^comment@0
a /*^comment@2
/* *^comment@0
a/**/b/*^comment@6
";

#[test]
fn comments(rt: HostRuntime) -> Result<(), Fail> {
    check(&rt, rt.alloc(), COMMENTS)
}

static STRINGS: &[u8] = b"
\"\"^s\"\"|
\"\"\"\"^s\"\"\"\"|
\"a\"\"b\"^s\"a\"\"b\"|
\"a\" \"b\"^s\"a\"|s\"b\"|
\"\t\"^s\"\t\"|
\"\xe9\"^s\"\xe9\"|
\"/*\"^s\"/*\"|
X\"1F\"^wX|s\"1F\"|
8X\"1F\"^n8X|s\"1F\"|
\"abc^string@0
x \"abc^string@2
\"a~b\"^string@0
\"a\x0bb\"^string@0
\"a\x0cb\"^string@0
\"a\rb\"^string@0
\"\"\"^string@2
\"a\"\"~^string@3
\"a\"\"b^string@3
\"a\"\"b\"\"c~\"^string@6
";

#[test]
fn strings(rt: HostRuntime) -> Result<(), Fail> {
    check(&rt, rt.alloc(), STRINGS)
}

static EXTENDED_IDENTIFIERS: &[u8] = b"
\\a b\\^e\\a b\\|
\\\\^e\\\\|
\\a\\\\b\\^e\\a\\\\b\\|
\\a\\ \\b\\^e\\a\\|e\\b\\|
\\\"\\^e\\\"\\|
\\--\\^e\\--\\|
\\a^extended@0
\\a~b\\^extended@0
\\a\\\\^extended@3
\\^extended@0
\\\\\\^extended@2
";

#[test]
fn extended_identifiers(rt: HostRuntime) -> Result<(), Fail> {
    check(&rt, rt.alloc(), EXTENDED_IDENTIFIERS)
}

static TICKS: &[u8] = b"
x <= std_logic'('1') & '(' & \"a--b\";^wx|y<|y=|wstd_logic|t'|y(|c'1'|y)|y&|c'('|y&|s\"a--b\"|y;|
a'b'^wa|t'|wb|t'|
all'b'^wall|t'|wb|t'|
aLL'b'^waLL|t'|wb|t'|
s'subtype'('0', '1')^ws|t'|wsubtype|t'|y(|c'0'|y,|c'1'|y)|
S'SubType'('0','1')^wS|t'|wSubType|t'|y(|c'0'|y,|c'1'|y)|
s.all'subtype'(s)^ws|y.|wall|t'|wsubtype|t'|y(|ws|y)|
f(x)'SUBTYPE'('(')^wf|y(|wx|y)|t'|wSUBTYPE|t'|y(|c'('|y)|
subtype'a'^wsubtype|t'|wa|t'|
SUBTYPE'a'^wSUBTYPE|t'|wa|t'|
subtype 'a'^wsubtype|t'|wa|t'|
subtype --c~'a'^wsubtype|t'|wa|t'|#--c|
\\subtype\\'a'^e\\subtype\\|t'|wa|t'|
subtypes'a'^wsubtypes|t'|wa|t'|
subtyp'a'^wsubtyp|t'|wa|t'|
type'a'^wtype|c'a'|
subtype('a')^wsubtype|y(|c'a'|y)|
subtype range'a'^wsubtype|wrange|c'a'|
is'b'^wis|c'b'|
IS'b'^wIS|c'b'|
abs'b'^wabs|c'b'|
xor'b'^wxor|c'b'|
xnors'b'^wxnors|t'|wb|t'|
assume_guarantee'b'^wassume_guarantee|c'b'|
assume_'b'^wassume_|t'|wb|t'|
Range'b'^wRange|c'b'|
x'range^wx|t'|wrange|
\\a\\'b'^e\\a\\|t'|wb|t'|
\\is\\'b'^e\\is\\|t'|wb|t'|
)'b'^y)|t'|wb|t'|
]'b'^y]|t'|wb|t'|
('b'^y(|c'b'|
['b'^y[|c'b'|
'a''b'^c'a'|t'|wb|t'|
\"a\"'b'^s\"a\"|t'|wb|t'|
1'b'^n1|c'b'|
a''b'^wa|t'|c'b'|
\xe9'b'^h\xe9|c'b'|
'^t'|
'a^t'|wa|
'''^c'''|
''''^c'''|t'|
'~'^c'~'|
a--c~'b'^wa|t'|wb|t'|#--c|
a /* */ 'b'^wa|t'|wb|t'|
is`x~'b'^wis|c'b'|
a'('b')^wa|t'|y(|c'b'|y)|
'\"'^c'\"'|
a'\"'^string@2
'-'-'-'^c'-'|y-|c'-'|
";

#[test]
fn ticks(rt: HostRuntime) -> Result<(), Fail> {
    check(&rt, rt.alloc(), TICKS)
}

/// A text of this many double quotes.
fn quotes(alloc: Global, count: usize) -> Result<Vec<u8>, Fail> {
    let mut text = Vec::with_capacity(alloc, count)?;
    for _ in 0..count {
        text.push(b'"')?;
    }
    Ok(text)
}

/// What is found in them.
fn scanned_quotes(alloc: Global, count: usize) -> Result<Vec<u8>, Fail> {
    let text = quotes(alloc, count)?;
    text_of_scan(alloc, &text)
}

#[test]
fn many_quotes(rt: HostRuntime) -> Result<(), Fail> {
    let even = scanned_quotes(rt.alloc(), 4_194_304)?;
    assert!(rt; even.len() == 4_194_306 && even.starts_with(b"s\"") && even.ends_with(b"\"|"));
    let odd = scanned_quotes(rt.alloc(), 4_194_303)?;
    assert!(rt; odd.as_slice() == b"string@4194302".as_slice());
    Ok(())
}

/// Tokens of all kinds.
static ROLED: &[u8] = b"USE l.all, \\L\\; 'x' 1.0 \"use\" (Run'a) elsif -- use\n: signal < \xe9";

static ROLES: &[Role] = &[
    Role::Use,
    Role::Name,
    Role::Dot,
    Role::All,
    Role::Comma,
    Role::Name,
    Role::Semicolon,
    Role::Other,
    Role::Other,
    Role::Other,
    Role::Opening,
    Role::Name,
    Role::Other,
    Role::Name,
    Role::Closing,
    Role::Elsif,
    Role::Colon,
    Role::Other,
    Role::Other,
    Role::Other,
];

/// The number of tokens, and their roles.
fn roles_of_text(alloc: Global, text: &[u8]) -> Result<(u64, RoleList), Fail> {
    if text.len() > 4_194_304 {
        return Err(Fail::from("a small text"));
    }
    let mut roles = RoleList::new(alloc);
    let tokens = scan_with_roles(alloc, text, &mut roles, no_tokens(alloc))?;
    Ok((tokens.list.len(), roles))
}

#[test]
fn roles(rt: HostRuntime) -> Result<(), Fail> {
    let (tokens, roles) = roles_of_text(rt.alloc(), ROLED)?;
    assert_eq!(rt; tokens, 20);
    assert!(rt; roles.as_slice() == ROLES);
    Ok(())
}
