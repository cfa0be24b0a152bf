// Words of a line, and numbers among them.
ghost use Rattle.std.specs.Prelude.{◌≡◌, ◌<◌, ◌∷◌, [], length, IfSome, IfNone};
ghost use Rattle.mono_text.specs.Words as spec;

// Returns whether the byte is a gap between words.
fn is_gap(byte: u8) -> bool
    ensures { result ≡ spec.is_gap byte }
{
    byte == b' ' || byte == b';'
}

/// Returns the first word, and the bytes after its gap; None if no gap ends it.
pub(crate) fn cut(bytes: &[u8]) -> (&[u8], Option<&[u8]>)
    ensures behind { IfSome result.1 (λ rest. spec.words bytes.now ≡ result.0.now ∷ spec.words rest.now) }
    ensures last { IfNone result.1 (spec.words bytes.now ≡ result.0.now ∷ []) }
    ensures shorter { IfSome result.1 (λ rest. length rest.now < length bytes.now) }
{
    let mut place = 0usize;
    'bytes: while place < bytes.len() {
        if is_gap(bytes[place]) {
            return (&bytes[..place], Some(&bytes[place + 1..]));
        }
        place += 1;
    }
    (bytes, None)
}

/// Returns whether the word is among those of a text.
pub(crate) fn is_among(word: &[u8], text: &[u8]) -> bool
    ensures { result ≡ spec.is_among word.now (spec.words text.now) }
{
    let mut rest = text;
    'words: loop {
        let (name, behind) = cut(rest);
        if word == name {
            return true;
        }
        let Some(more) = behind else {
            return false;
        };
        rest = more;
    }
}

fn are_digits(word: &[u8]) -> bool
    ensures { result ≡ spec.are_digits word.now }
{
    let mut rest = word;
    'bytes: while let Some((byte, more)) = rest.split_first() {
        if !byte.is_ascii_digit() {
            return false;
        }
        rest = more;
    }
    true
}

// Returns whether it is a number: digits, the first of them not zero.
fn is_number(word: &[u8]) -> bool
    ensures { result ≡ spec.is_number word.now }
{
    match word.split_first() {
        None => false,
        Some((first, _)) => *first != b'0' && are_digits(word),
    }
}

/// Returns whether it is zero or a number.
pub(crate) fn is_plain(word: &[u8]) -> bool
    ensures { result ≡ spec.is_plain word.now }
{
    word == b"0".as_slice() || is_number(word)
}

/// Returns whether the word is a number above this one.
pub(crate) fn is_above(top: &[u8], word: &[u8]) -> bool
    ensures { result ≡ spec.is_above top.now word.now }
{
    if !is_number(word) {
        return false;
    }
    if top.len() < word.len() {
        return true;
    }
    word.len() == top.len() && top.cmp(word).is_lt()
}

/// Returns whether a report follows the word.
pub(crate) fn is_arrow(word: &[u8]) -> bool
    ensures { result ≡ spec.is_arrow word.now }
{
    word == b"->".as_slice()
}

fn has_arrow(word: &[u8]) -> bool
    ensures { result ≡ spec.arrow_behind 0 word.now }
{
    let mut previous = 0u8;
    let mut rest = word;
    'bytes: while let Some((byte, more)) = rest.split_first() {
        if previous == b'-' && *byte == b'>' {
            return true;
        }
        previous = *byte;
        rest = more;
    }
    false
}

/// Returns whether `->` sticks to other bytes of the word.
pub(crate) fn is_stuck(word: &[u8]) -> bool
    ensures { result ≡ spec.is_stuck word.now }
{
    !is_arrow(word) && has_arrow(word)
}
