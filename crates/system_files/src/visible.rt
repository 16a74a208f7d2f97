//! Names without control characters, for a line of output.

use base::NoMemory;

/// Adds a name, with a question mark for each byte that would end the line or move a terminal's cursor.
pub fn push_visible(line: &mut Vec<u8>, name: &[u8]) -> Result<(), NoMemory> {
    let mut before = 0;
    for byte in name {
        let shown = if is_control(before, *byte) {
            b'?'
        } else {
            *byte
        };
        line.push(shown)?;
        before = *byte;
    }
    Ok(())
}

/// Whether a byte is a control character, or the end of one of two bytes.
fn is_control(before: u8, byte: u8) -> bool {
    byte < 0x20 || byte == 0x7f || before == 0xc2 && byte < 0xa0 && byte >= 0x80
}
