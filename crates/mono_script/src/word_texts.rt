// Bytes in a form that a terminal may show.
use std::alloc::{AllocError, Global};
use std::format;

// How many bytes of a word are shown.
const MOST: usize = 40;

// Returns the first `most` bytes as text that may stand in quotes. A quote and a backslash have a backslash before them. A
// byte that is neither graphic ASCII nor a blank is written as `\x` and two digits, and `...` follows a text that was cut.
pub(crate) fn cut(alloc: Global, bytes: &[u8], most: usize) -> Result<String, AllocError> {
    let mut text = String::new(alloc);
    for byte in bytes.iter().take(most) {
        let byte = *byte;
        if byte == b'"' || byte == b'\\' {
            text.push('\\')?;
        }
        if byte == b' ' || byte.is_ascii_graphic() {
            text.push(char::from(byte))?;
        } else {
            text.push_str(format!(in alloc; "\\x{byte:02x}")?.as_str())?;
        }
    }
    if bytes.len() > most {
        text.push_str("...")?;
    }
    Ok(text)
}

/// Returns the first 40 bytes as text that may stand in quotes. A quote and a backslash have a backslash before them. A
/// byte that is neither graphic ASCII nor a blank is written as `\x` and two digits, and `...` follows a text that was cut.
pub fn shown(alloc: Global, bytes: &[u8]) -> Result<String, AllocError> {
    cut(alloc, bytes, MOST)
}
