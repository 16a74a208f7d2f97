//! The parts of bytes before and after a delimiter, and the lines of bytes.

ghost use Rattle.std.specs.Prelude.{◌≡◌, ◌==◌, ◌+◌, ◌<◌, [], ◌∷◌, ◌++◌, length, MatchOption, IfSome, position};
ghost use Rattle.std.specs.List.{slice_split, before_first, after_first};
ghost use Rattle.std.specs.Str.Lines.{lines, strip_carriage_return};

/// The index of the first of a byte.
fn position_of(bytes: &[u8], delimiter: u8) -> Option<usize>
    ensures { result ≡ position (λ byte. byte == delimiter) bytes.now }
{
    bytes.iter().position(|byte| *byte == delimiter)
}

/// The bytes before the first of a byte, and those after it; `None` where that byte doesn't occur.
pub fn cut_at(bytes: &[u8], delimiter: u8) -> Option<(&[u8], &[u8])>
    ensures parts { MatchOption result
        (slice_split (λ byte. byte == delimiter) bytes.now ≡ bytes.now ∷ [])
        (λ cut. slice_split (λ byte. byte == delimiter) bytes.now ≡
        cut.0.now ∷ slice_split (λ byte. byte == delimiter) cut.1.now) }
    ensures less { IfSome result
        (λ cut. length cut.0.now + length cut.1.now + 1 ≡ length bytes.now) }
{
    match position_of(bytes, delimiter) {
        None => None,
        Some(at) => Some((&bytes[..at], &bytes[at + 1..])),
    }
}

/// The bytes before the first of a byte, and those after it; all and none where that byte doesn't occur.
pub fn sides(bytes: &[u8], delimiter: u8) -> (&[u8], &[u8])
    ensures before { result.0.now ≡ before_first (λ byte. byte == delimiter) bytes.now }
    ensures after { result.1.now ≡ after_first (λ byte. byte == delimiter) bytes.now }
{
    match position_of(bytes, delimiter) {
        None => (bytes, &bytes[bytes.len()..]),
        Some(at) => (&bytes[..at], &bytes[at + 1..]),
    }
}

/// The bytes without the carriage return at their end, if they end with one.
fn without_return(line: &[u8]) -> &[u8]
    ensures { result.now ≡ strip_carriage_return line.now }
{
    if line.len() > 0 && line[line.len() - 1] == b'\r' {
        &line[..line.len() - 1]
    } else {
        line
    }
}

/// The first line, and the bytes after it; `None` if there are no bytes.
pub fn next_line(bytes: &[u8]) -> Option<(&[u8], &[u8])>
    ensures lines { MatchOption result
        (lines bytes.now ≡ [])
        (λ next. lines bytes.now ≡ next.0.now ∷ lines next.1.now) }
    ensures less { IfSome result (λ next. length next.1.now < length bytes.now) }
{
    match cut_at(bytes, b'\n') {
        Some((line, rest)) => Some((without_return(line), rest)),
        None => last_line(bytes),
    }
}

/// The last line: bytes without a line feed, and the empty rest after them; `None` if there are no bytes.
fn last_line(bytes: &[u8]) -> Option<(&[u8], &[u8])>
    requires { slice_split (λ byte. byte == 10) bytes.now ≡ bytes.now ∷ [] }
    ensures lines { MatchOption result
        (lines bytes.now ≡ [])
        (λ next. lines bytes.now ≡ next.0.now ∷ lines next.1.now) }
    ensures less { IfSome result (λ next. length next.1.now < length bytes.now) }
{
    if bytes.is_empty() {
        None
    } else {
        Some((bytes, &bytes[bytes.len()..]))
    }
}
