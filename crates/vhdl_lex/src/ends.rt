//! Where lexical elements of a text end: one function a form, each with one loop.

ghost use Rattle.std.specs.Prelude.{◌≡◌, ◌+◌, ◌<◌, ◌≤◌, false, not, length};
ghost use Rattle.vhdl_spec.specs.Tokens.{is_blank, is_line_end, is_word_byte, is_number_byte};
ghost use Rattle.vhdl_lex.specs.Ends.{AreStops, IsRunEnd, IsCommentEnd, IsDelimitedEnd};

use crate::class::{is_blank, is_line_end, is_number_byte, is_word_byte};
use crate::stops::stop_from;
use base::TEXT_LIMIT;

/// The end of the bytes of a word. `stops` marks bytes that aren't of a word among the 64 from `base` on.
#[inline(always)]
pub fn word_end_by(text: &[u8], from: usize, base: usize, stops: u64) -> usize
    requires within { from ≤ length text.now }
    requires small { length text.now ≤ TEXT_LIMIT }
    requires ordered { base ≤ from }
    requires stops { AreStops is_word_byte text.now base stops }
    ensures { IsRunEnd is_word_byte text.now from result }
{
    match stop_from(from, base, stops) {
        Some(end) => end,
        None => word_end(text, from),
    }
}

/// The end of a gap of blanks. `stops` marks bytes that aren't blank among the 64 from `base` on.
#[inline(always)]
pub fn gap_end_by(text: &[u8], from: usize, base: usize, stops: u64) -> usize
    requires within { from ≤ length text.now }
    requires small { length text.now ≤ TEXT_LIMIT }
    requires ordered { base ≤ from }
    requires stops { AreStops is_blank text.now base stops }
    ensures { IsRunEnd is_blank text.now from result }
{
    match stop_from(from, base, stops) {
        Some(end) => end,
        None => gap_end(text, from),
    }
}

/// The end of a gap of blanks.
#[inline(never)]
fn gap_end(text: &[u8], from: usize) -> usize
    requires { from ≤ length text.now }
    ensures { IsRunEnd is_blank text.now from result }
{
    let mut end = from;
    while end < text.len() && is_blank(text[end]) {
        end += 1;
    }
    end
}

/// The end of the bytes of a word.
#[inline(never)]
pub fn word_end(text: &[u8], from: usize) -> usize
    requires { from ≤ length text.now }
    ensures { IsRunEnd is_word_byte text.now from result }
{
    let mut end = from;
    while end < text.len() && is_word_byte(text[end]) {
        end += 1;
    }
    end
}

/// The end of the bytes of a number.
#[inline(always)]
pub fn number_end(text: &[u8], from: usize) -> usize
    requires { from ≤ length text.now }
    ensures { IsRunEnd is_number_byte text.now from result }
{
    let mut end = from;
    while end < text.len() && is_number_byte(text[end]) {
        end += 1;
    }
    end
}

/// The end of the line.
#[inline(always)]
pub fn line_end(text: &[u8], from: usize) -> usize
    requires { from ≤ length text.now }
    ensures { IsRunEnd (λ byte. not (is_line_end byte)) text.now from result }
{
    let mut end = from;
    while end < text.len() && !is_line_end(text[end]) {
        end += 1;
    }
    end
}

/// The end of the block comment that opens at `at`.
pub fn comment_end(text: &[u8], at: usize) -> Option<usize>
    requires { at + 2 ≤ length text.now }
    ensures { IsCommentEnd text.now at result }
{
    let mut close = at + 2;
    while close + 1 < text.len() {
        if text[close] == b'*' && text[close + 1] == b'/' {
            return Some(close + 2);
        }
        close += 1;
    }
    None
}

/// The furthest end of the string or extended identifier that opens at `at` with the delimiter.
#[inline(always)]
pub fn end_after_delimiter(text: &[u8], at: usize, delimiter: u8) -> Option<usize>
    requires within { at < length text.now }
    requires some { 0 < delimiter }
    requires in_line { is_line_end delimiter ≡ false }
    ensures { IsDelimitedEnd delimiter text.now at result }
{
    let mut end = None;
    let mut close = at + 1;
    while close < text.len() && !is_line_end(text[close]) {
        if text[close] == delimiter {
            if close + 1 == text.len() || text[close + 1] != delimiter {
                return Some(close + 1);
            }
            end = Some(close + 1);
            close += 1;
        }
        close += 1;
    }
    end
}
