// Why the words of the command line are no settings.
use crate::pages::page_of;
use mono_text::whole_number;
use std::alloc::{AllocError, Global};
use std::format;

// The cause if there is no word.
const USAGE: &str =
    "usage: lease_server CORES SESSIONS ENTRIES BUCKETS ACTORS MESSAGES [still] < REQUESTS; lease_server --help says more";

// Where the input comes from.
const HINT: &str = "the input is standard input, as in < FILE";

// How many bytes of a word are shown.
const MOST: usize = 40;

// How many words are numbers.
const NUMBERS: usize = 6;

// Returns the number that a word has to be, by its place.
fn form_at(at: usize) -> Option<&'static str> {
    match at {
        0 => Some("CORES is a number from 1 to 64"),
        1 => Some("SESSIONS is a number below 2^64"),
        2 => Some("ENTRIES is a number below 2^64"),
        3 => Some("BUCKETS is a number below 2^64"),
        4 => Some("ACTORS is a number below 2^64"),
        5 => Some("MESSAGES is a number below 2^64"),
        _ => None,
    }
}

// Returns whether a word fits its place among the numbers.
fn fits(at: usize, word: &str) -> bool {
    match whole_number(word.as_bytes()) {
        Some(cores) if at == 0 => cores >= 1 && cores <= 64,
        Some(_) => true,
        None => false,
    }
}

// Returns the first 40 bytes as text that may stand in quotes. A quote and a backslash have a backslash before them. A byte
// that is neither graphic ASCII nor a blank is written as `\x` and two digits, and `...` follows a text that was cut.
fn shown(alloc: Global, word: &str) -> Result<String, AllocError> {
    let bytes = word.as_bytes();
    let mut text = String::new(alloc);
    for byte in bytes.iter().take(MOST) {
        let byte = *byte;
        if byte == b'"' || byte == b'\\' {
            text.push('\\')?;
        }
        if byte == b' ' || byte.is_ascii_graphic() {
            text.push(char::from(byte))?;
        } else {
            text.push_str(format!(in alloc; "\\x{byte:02x}")?.as_str())?;
        }
    }
    if bytes.len() > MOST {
        text.push_str("...")?;
    }
    Ok(text)
}

// Returns the first of the words that asks for a page.
fn page_word(words: &[String]) -> Option<&str> {
    for word in words {
        if page_of(word.as_str()).is_some() {
            return Some(word.as_str());
        }
    }
    None
}

// Returns why words, of which one asks for a page, name none.
fn page_complaint(alloc: Global, words: &[String], asking: &str) -> Result<String, AllocError> {
    match words {
        [first, second, ..] if first.as_str() == "help" => {
            let word = shown(alloc, second.as_str())?;
            format!(in alloc; "help: \"{word}\" is a word too many: it takes no word")
        }
        _ => format!(in alloc; "\"{asking}\" stands alone"),
    }
}

// Returns whether the word `still` stands among the numbers.
fn is_still_early(words: &[String]) -> bool {
    for word in words.iter().take(NUMBERS) {
        if word.as_str() == "still" {
            return true;
        }
    }
    false
}

// Returns why the word at a place after the numbers is wrong, if it is.
fn later_complaint(alloc: Global, at: usize, word: &str) -> Result<Option<String>, AllocError> {
    if at > NUMBERS {
        let word = shown(alloc, word)?;
        return Ok(Some(format!(in alloc; "\"{word}\" is a word too many: {HINT}")?));
    }
    if word == "still" {
        return Ok(None);
    }
    let word = shown(alloc, word)?;
    Ok(Some(format!(in alloc;
        "\"{word}\" is a word too many: only still may follow MESSAGES, and {HINT}"
    )?))
}

// Returns why the word at a place is wrong, if it is.
fn complaint_at(alloc: Global, at: usize, word: &str) -> Result<Option<String>, AllocError> {
    let Some(form) = form_at(at) else {
        return later_complaint(alloc, at, word);
    };
    if fits(at, word) {
        return Ok(None);
    }
    let word = shown(alloc, word)?;
    let more = if at == 0 {
        "; lease_server --help says more"
    } else {
        ""
    };
    Ok(Some(format!(in alloc; "\"{word}\": {form}{more}")?))
}

// Returns the first word that is wrong, or the first that is missing, with the form expected there.
fn place_complaint(alloc: Global, words: &[String]) -> Result<String, AllocError> {
    let mut at = 0usize;
    for word in words {
        if let Some(text) = complaint_at(alloc, at, word.as_str())? {
            return Ok(text);
        }
        at = at.saturating_add(1);
    }
    match form_at(at) {
        Some(form) => format!(in alloc; "a word is missing: {form}"),
        None => String::from_str(alloc, "nothing is wrong"),
    }
}

/// Returns in one sentence why the words after the program's name are no settings: the word that is wrong, and the form
/// expected there. For words that say settings, or ask for a page, it says that nothing is wrong.
pub fn complaint(alloc: Global, words: &[String]) -> Result<String, AllocError> {
    if words.is_empty() {
        return String::from_str(alloc, USAGE);
    }
    if let Some(asking) = page_word(words) {
        return page_complaint(alloc, words, asking);
    }
    if is_still_early(words) {
        return String::from_str(alloc, "\"still\" goes right after MESSAGES");
    }
    place_complaint(alloc, words)
}
