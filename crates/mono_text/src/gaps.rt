// The gaps between the words of a line.
ghost use Rattle.std.specs.Prelude.{◌≡◌, ◌<◌, ◌∷◌, [], length, IfSome, IfNone};
ghost use Rattle.std.specs.Option.{option_map};
ghost use Rattle.mono_text.specs.Words.{words};
ghost use Rattle.mono_text.specs.ReasonTexts.{told};
ghost use Rattle.mono_text.specs.Gaps as spec;

use crate::reasons::{Fault, Reason};
use crate::words::{cut, is_arrow};

fn is_blank(byte: u8) -> bool
    ensures { result ≡ spec.is_blank byte }
{
    byte == b' '
}

// Returns the bytes before the first blank, and those after it; None if there is no blank.
fn cut_blank(bytes: &[u8]) -> (&[u8], Option<&[u8]>)
    ensures behind { IfSome result.1 (λ rest. spec.pieces bytes.now ≡ result.0.now ∷ spec.pieces rest.now) }
    ensures last { IfNone result.1 (spec.pieces bytes.now ≡ result.0.now ∷ []) }
    ensures shorter { IfSome result.1 (λ rest. length rest.now < length bytes.now) }
{
    let mut place = 0usize;
    'bytes: while place < bytes.len() {
        if is_blank(bytes[place]) {
            return (&bytes[..place], Some(&bytes[place + 1..]));
        }
        place += 1;
    }
    (bytes, None)
}

/// Returns whether the last byte is this one.
pub(crate) fn ends_in(byte: u8, bytes: &[u8]) -> bool
    ensures { result ≡ spec.ends_in byte bytes.now }
{
    match bytes.split_last() {
        Some((last, _)) => *last == byte,
        None => false,
    }
}

// Returns whether the line may end in a blank after this piece.
fn is_open(piece: &[u8]) -> bool
    ensures { result ≡ spec.is_open piece.now }
{
    is_arrow(piece) || ends_in(b';', piece)
}

// Returns whether the line, or its report if the piece begins it, has semicolons.
fn has_parts(in_turn: bool, previous: &[u8], piece: &[u8]) -> bool
    ensures { result ≡ spec.has_parts in_turn previous.now piece.now }
{
    if is_arrow(previous) {
        cut(piece).0 == b"turn".as_slice()
    } else {
        in_turn
    }
}

// Returns the fault of a word that a semicolon precedes, and no blank.
fn gap_wrong<'a>(word: &'a [u8]) -> Option<Fault<'a>>
    ensures { option_map told result ≡ spec.gap_wrong word.now }
{
    if word == b"".as_slice() {
        None
    } else {
        Some(Fault {
            reason: Reason::NoGap,
            word,
            head: b"turn",
        })
    }
}

// Returns the second word, or an empty one if there is none.
fn second_of(bytes: &[u8]) -> &[u8]
    ensures { result.now ≡ spec.second_of (words bytes.now) }
{
    match cut(bytes).1 {
        Some(more) => cut(more).0,
        None => b"",
    }
}

// Returns the fault of the two words of a piece after its first one.
fn stuck_wrong<'a>(next: &'a [u8], third: &'a [u8]) -> Option<Fault<'a>>
    ensures { option_map told result ≡ spec.stuck_wrong next.now third.now }
{
    if next == b"".as_slice() {
        gap_wrong(third)
    } else {
        gap_wrong(next)
    }
}

// Returns the fault of a piece with a semicolon, by the three words around it and by the piece before it.
fn semicolon_wrong<'a>(
    in_turn: bool,
    previous: &'a [u8],
    word: &'a [u8],
    next: &'a [u8],
    third: &'a [u8],
) -> Option<Fault<'a>>
    ensures { option_map told result ≡ spec.semicolon_wrong in_turn previous.now word.now next.now third.now }
{
    if !in_turn {
        return Some(Fault {
            reason: Reason::StraySemicolon,
            word,
            head: word,
        });
    }
    if word == b"".as_slice() {
        return Some(Fault {
            reason: Reason::StrayBlank,
            word: previous,
            head: b"",
        });
    }
    stuck_wrong(next, third)
}

// Returns the fault of a piece's semicolons.
fn semicolons_wrong<'a>(in_turn: bool, previous: &'a [u8], piece: &'a [u8]) -> Option<Fault<'a>>
    ensures { option_map told result ≡ spec.semicolons_wrong in_turn previous.now (words piece.now) }
{
    let (word, behind) = cut(piece);
    match behind {
        Some(more) => semicolon_wrong(in_turn, previous, word, cut(more).0, second_of(more)),
        None => None,
    }
}

// Returns the fault of an empty piece.
fn blank_wrong<'a>(previous: &'a [u8]) -> Option<Fault<'a>>
    ensures { option_map told result ≡ spec.blank_wrong previous.now }
{
    if is_open(previous) {
        None
    } else {
        Some(Fault {
            reason: Reason::StrayBlank,
            word: previous,
            head: b"",
        })
    }
}

// Returns the fault of a piece, by the two before it.
fn piece_wrong<'a>(
    in_turn: bool,
    older: &'a [u8],
    previous: &'a [u8],
    piece: &'a [u8],
) -> Option<Fault<'a>>
    ensures { option_map told result ≡ spec.piece_wrong in_turn older.now previous.now piece.now }
{
    if previous == b"".as_slice() {
        return Some(Fault {
            reason: Reason::StrayBlank,
            word: older,
            head: b"",
        });
    }
    if piece == b"".as_slice() {
        return blank_wrong(previous);
    }
    semicolons_wrong(has_parts(in_turn, previous, piece), previous, piece)
}

// Returns the first fault of the gaps in these bytes, which follow this first word.
fn gaps_from<'a>(is_turn: bool, first: &'a [u8], bytes: &'a [u8]) -> Option<Fault<'a>>
    ensures { option_map told result ≡ spec.gaps_from is_turn first.now first.now (spec.pieces bytes.now) }
{
    let mut in_turn = is_turn;
    let mut older: &[u8] = first;
    let mut previous: &[u8] = first;
    let mut rest = bytes;
    'pieces: loop {
        let (piece, behind) = cut_blank(rest);
        if let Some(fault) = piece_wrong(in_turn, older, previous, piece) {
            return Some(fault);
        }
        let Some(more) = behind else {
            return None;
        };
        in_turn = has_parts(in_turn, previous, piece);
        older = previous;
        previous = piece;
        rest = more;
    }
}

/// Returns the first fault of a line's gaps.
pub(crate) fn gaps_wrong<'a>(line: &'a [u8]) -> Option<Fault<'a>>
    ensures { option_map told result ≡ spec.gaps_wrong line.now }
{
    let first = cut(line).0;
    gaps_from(first == b"turn".as_slice(), first, line)
}

/// Returns whether the first byte is a blank.
pub(crate) fn begins_with_blank(bytes: &[u8]) -> bool
    ensures { result ≡ spec.begins_with_blank bytes.now }
{
    match bytes.split_first() {
        Some((first, _)) => *first == b' ',
        None => false,
    }
}
