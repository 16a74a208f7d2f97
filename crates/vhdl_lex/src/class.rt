//! Classes of bytes (IEEE Std 1076-2008, clauses 15.2, 15.4 and 15.5).

ghost use Rattle.std.specs.Prelude.{◌≡◌};
ghost use Rattle.vhdl_spec.specs.Tokens.{is_blank, is_line_end, is_word_byte, is_number_byte};
ghost use Rattle.vhdl_lex.specs.LexicalElements.{is_plain};

const LINE_END: u8 = 1;

const IN_NUMBER: u8 = 2;

const IN_WORD: u8 = 3;

/// The class of each byte. What may be in a word may be in a number too.
static CLASS: [u8; 256] = [
    0, 0, 0, 0, 0, 0, 0, 0, 0, 0, 1, 1, 1, 1, 0, 0, 0, 0, 0, 0, 0, 0, 0, 0, 0, 0, 0, 0, 0, 0, 0, 0,
    0, 0, 0, 2, 0, 0, 0, 0, 0, 0, 0, 0, 0, 0, 2, 0, 3, 3, 3, 3, 3, 3, 3, 3, 3, 3, 0, 0, 0, 0, 0, 0,
    0, 3, 3, 3, 3, 3, 3, 3, 3, 3, 3, 3, 3, 3, 3, 3, 3, 3, 3, 3, 3, 3, 3, 3, 3, 3, 3, 0, 0, 0, 0, 3,
    0, 3, 3, 3, 3, 3, 3, 3, 3, 3, 3, 3, 3, 3, 3, 3, 3, 3, 3, 3, 3, 3, 3, 3, 3, 3, 3, 0, 0, 0, 0, 0,
    0, 0, 0, 0, 0, 0, 0, 0, 0, 0, 0, 0, 0, 0, 0, 0, 0, 0, 0, 0, 0, 0, 0, 0, 0, 0, 0, 0, 0, 0, 0, 0,
    0, 0, 0, 0, 0, 0, 0, 0, 0, 0, 0, 0, 0, 0, 0, 0, 0, 0, 0, 0, 0, 0, 0, 0, 0, 0, 0, 0, 0, 0, 0, 0,
    0, 0, 0, 0, 0, 0, 0, 0, 0, 0, 0, 0, 0, 0, 0, 0, 0, 0, 0, 0, 0, 0, 0, 0, 0, 0, 0, 0, 0, 0, 0, 0,
    0, 0, 0, 0, 0, 0, 0, 0, 0, 0, 0, 0, 0, 0, 0, 0, 0, 0, 0, 0, 0, 0, 0, 0, 0, 0, 0, 0, 0, 0, 0, 0,
];

/// Whether a line ends before the byte.
#[inline(always)]
pub fn is_line_end(byte: u8) -> bool
    ensures { result ≡ is_line_end byte }
{
    CLASS[byte as usize] == LINE_END
}

/// Whether a byte is an ASCII letter, a digit or `_`.
#[inline(always)]
pub fn is_word_byte(byte: u8) -> bool
    ensures { result ≡ is_word_byte byte }
{
    CLASS[byte as usize] >= IN_WORD
}

/// Whether a byte is an ASCII letter, a digit, `_`, `.` or `#`.
#[inline(always)]
pub fn is_number_byte(byte: u8) -> bool
    ensures { result ≡ is_number_byte byte }
{
    CLASS[byte as usize] >= IN_NUMBER
}

/// Whether a byte is a tab, a line end or a space.
#[inline(always)]
pub fn is_blank(byte: u8) -> bool
    ensures { result ≡ is_blank byte }
{
    match byte {
        9..=13 | b' ' => true,
        _ => false,
    }
}

/// Whether a byte is one of the delimiters that nothing else begins with, and that most texts are full of.
#[inline(always)]
pub fn is_plain(byte: u8) -> bool
    ensures { result ≡ is_plain byte }
{
    match byte {
        b'('..=b',' | b'.' | b':'..=b'>' => true,
        _ => false,
    }
}
