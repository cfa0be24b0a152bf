// Which words ask for a page, and the answer to them.
ghost use Rattle.std.specs.Prelude.{◌≡◌, ◌∷◌, ◌⊎◌, ◌↔◌, [], IfNone, IfSome, IsTrue, codes, map, string_bytes};
ghost use Rattle.mono_main.specs.Pages.{Asks, AsksNothing, IsAnsweredBy, IsHelpFlag, IsHelpWord};

use crate::pages::{Page, text_of, topic_of};
use mono_script::{Sink, Status, write_all};

fn is_help_flag(word: &str) -> bool
    ensures { IsTrue result ↔ IsHelpFlag word.now }
{
    word == "--help" || word == "-h"
}

fn is_help_word(word: &str) -> bool
    ensures { IsTrue result ↔ IsHelpWord word.now }
{
    is_help_flag(word) || word == "help"
}

// Returns the page for which one word asks.
fn page_of_one(word: &str) -> Option<Page>
    ensures some { IfSome result (Asks (word.now ∷ [])) }
    ensures none { IfNone result (AsksNothing (word.now ∷ [])) }
{
    if is_help_word(word) {
        return Some(Page::General);
    }
    if word == "--version" {
        return Some(Page::Version);
    }
    None
}

// Returns whether the word has the general help after `help`.
fn is_general(word: &str) -> bool
    ensures { IsTrue result ↔ IsHelpWord word.now ⊎ (word.now ≡ codes "--version") }
{
    is_help_word(word) || word == "--version"
}

// Returns the page for which a word after `help` asks.
fn page_after_help(word: &str) -> Option<Page>
    ensures some { IfSome result (Asks (codes "help" ∷ word.now ∷ [])) }
    ensures none { IfNone result (AsksNothing (codes "help" ∷ word.now ∷ [])) }
{
    if is_general(word) {
        return Some(Page::General);
    }
    Some(Page::About(topic_of(word)?))
}

// Returns the page for which two words ask.
fn page_of_two(first: &str, second: &str) -> Option<Page>
    ensures some { IfSome result (Asks (first.now ∷ second.now ∷ [])) }
    ensures none { IfNone result (AsksNothing (first.now ∷ second.now ∷ [])) }
{
    if first == "help" {
        return page_after_help(second);
    }
    if !is_help_flag(second) {
        return None;
    }
    Some(Page::About(topic_of(first)?))
}

/// Returns the page for which the words ask. One word asks for the version, or for help in general. Of two words one asks
/// for help, and the other names a command; after `help` a word that asks for help, or for the version, has the general
/// help.
pub(crate) fn help_of(words: &Vec<String>) -> Option<Page>
    ensures some { IfSome result (Asks (map string_bytes words.now.items)) }
    ensures none { IfNone result (AsksNothing (map string_bytes words.now.items)) }
{
    match words.as_slice() {
        [word] => page_of_one(word.as_str()),
        [first, second] => page_of_two(first.as_str(), second.as_str()),
        _ => None,
    }
}

/// Writes the page for which the words ask, and returns the status: 0 if all of it was written. It returns None, and
/// writes nothing, if they ask for none.
pub(crate) fn write_page<K: Sink>(sink: &mut K, words: &Vec<String>) -> Option<Status>
    ensures some { IfSome result (IsAnsweredBy (map string_bytes words.now.items) (K.written sink.old) (K.written sink.new) (K.faults sink.old) (K.faults sink.new)) }
    ensures none { IfNone result (AsksNothing (map string_bytes words.now.items) × (sink.new ≡ sink.old)) }
{
    let page = help_of(words)?;
    match write_all(sink, text_of(page).as_bytes()) {
        Ok(()) => Some(Status::Done),
        Err(_) => Some(Status::WriteFault),
    }
}
