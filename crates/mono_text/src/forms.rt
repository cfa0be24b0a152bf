// The forms of lines and of the parts of a turn.
ghost use Rattle.std.specs.Prelude.{◌≡◌};
ghost use Rattle.mono_text.specs.Words.{words};
ghost use Rattle.mono_text.specs.ReasonTexts.{told_forms};
ghost use Rattle.mono_text.specs.Forms as spec;

use crate::reasons::LineForms;
use crate::scripts::count_one;
use crate::words::{cut, is_among, is_arrow, is_plain};

/// Returns whether a form begins with the word. A number or an empty word begins none.
pub(crate) fn begins_form(forms: &[u8], word: &[u8]) -> bool
    ensures { result ≡ spec.begins_form (words forms.now) word.now }
{
    if word == b"".as_slice() || is_plain(word) {
        false
    } else {
        is_among(word, forms)
    }
}

// Returns whether a part ends before the word.
fn ends_part(word: &[u8]) -> bool
    ensures { result ≡ spec.ends_part word.now }
{
    word == b"".as_slice() || is_arrow(word)
}

/// Returns how many words of a part these bytes begin with.
pub(crate) fn words_left(bytes: &[u8]) -> u64
    ensures { result ≡ spec.count_from 0 (words bytes.now) }
{
    let mut count = 0u64;
    let mut rest = bytes;
    'words: loop {
        let (word, behind) = cut(rest);
        if ends_part(word) {
            return count;
        }
        count = count_one(count);
        let Some(more) = behind else {
            return count;
        };
        rest = more;
    }
}

/// Returns whether a form begins with this word and has so many words after it.
pub(crate) fn has_form(forms: &[u8], word: &[u8], count: u64) -> bool
    ensures { result ≡ spec.has_form (words forms.now) word.now count }
{
    let mut rest = forms;
    'words: loop {
        let (name, behind) = cut(rest);
        let Some(more) = behind else {
            return word == name && 0 == count;
        };
        if word == name && words_left(more) == count {
            return true;
        }
        rest = more;
    }
}

// Returns the greater count if the word has this name.
fn longer(most: u64, word: &[u8], name: &[u8], count: u64) -> u64
    ensures { result ≡ spec.longer most word.now name.now count }
{
    if word == name && most < count {
        count
    } else {
        most
    }
}

/// Returns the greatest count of words after this one in its forms.
pub(crate) fn most_words(forms: &[u8], word: &[u8]) -> u64
    ensures { result ≡ spec.most_words 0 (words forms.now) word.now }
{
    let mut most = 0u64;
    let mut rest = forms;
    'words: loop {
        let (name, behind) = cut(rest);
        let Some(more) = behind else {
            return longer(most, word, name, 0);
        };
        most = longer(most, word, name, words_left(more));
        rest = more;
    }
}

/// Returns the forms among which that of a word in a line is.
pub(crate) fn forms_of<'a>(forms: &LineForms<'a>, first: &[u8], head: &[u8]) -> &'a [u8]
    ensures { words result.now ≡ spec.forms_of (told_forms forms.now) first.now head.now }
{
    if first == b"turn".as_slice() && head != b"turn".as_slice() {
        forms.parts
    } else {
        forms.lines
    }
}
