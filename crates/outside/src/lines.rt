//! Where the first line of bytes ends.
ghost use Rattle.std.specs.Prelude.{◌≡◌, ◌≤◌, length, position};
ghost use Rattle.std.specs.List.{position_or_len};
ghost use Rattle.outside.specs.Streams.{is_line_feed};

/// The index of the first line feed.
fn line_feed(bytes: &[u8]) -> Option<usize>
    ensures { result ≡ position is_line_feed bytes.now }
{
    bytes.iter().position(|byte| *byte == b'\n')
}

/// The number of bytes before the first line feed, or of all bytes if there is no line feed.
pub fn line_length(bytes: &[u8]) -> usize
    ensures length { result ≡ position_or_len is_line_feed bytes.now }
    ensures within { result ≤ length bytes.now }
{
    match line_feed(bytes) {
        Some(at) => at,
        None => bytes.len(),
    }
}
