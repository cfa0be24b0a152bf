// Why words are no command.
use crate::forms::{COMMANDS, Place, fits, is_command, place_at};
use crate::word_texts::shown;
use std::alloc::{AllocError, Global};
use std::format;

// Returns the form that was expected at a place.
fn expected(alloc: Global, place: Place) -> Result<String, AllocError> {
    match place {
        Place::Strategy => String::from_str(alloc, "STRATEGY is attached, local or panic"),
        Place::Number(name, most) => {
            if most == u64::MAX {
                format!(in alloc; "{name} is a number below 2^64")
            } else {
                format!(in alloc; "{name} is a number, at most {most}")
            }
        }
    }
}

// Returns where the input comes from, after a colon, if the command reads one.
fn hint_of(command: &str) -> &'static str {
    if command == "load" {
        ""
    } else {
        ": the input is standard input, as in < FILE"
    }
}

// Returns why a place is wrong, if it is.
fn complaint_at(
    alloc: Global,
    command: &str,
    place: Option<Place>,
    word: Option<&String>,
) -> Result<Option<String>, AllocError> {
    let hint = hint_of(command);
    match (place, word) {
        (Some(place), Some(word)) => {
            if fits(place, word.as_str()) {
                return Ok(None);
            }
            let expected = expected(alloc, place)?;
            let word = shown(alloc, word.as_bytes())?;
            Ok(Some(format!(in alloc; "{command}: \"{word}\": {expected}")?))
        }
        (Some(place), None) => {
            let expected = expected(alloc, place)?;
            Ok(Some(format!(in alloc; "{command}: a word is missing: {expected}")?))
        }
        (None, Some(word)) => {
            let word = shown(alloc, word.as_bytes())?;
            Ok(Some(format!(in alloc; "{command}: \"{word}\" is a word too many{hint}")?))
        }
        (None, None) => Ok(None),
    }
}

// Returns the command that the words are about: after `help` the second word.
fn asked_of<'a>(words: &'a Vec<String>, first: &'a str) -> &'a str {
    match words.get(1) {
        Some(second) if first == "help" => second.as_str(),
        _ => first,
    }
}

// Returns why words that ask for help name no page, if they do and more is wrong than the command's name.
fn help_complaint(alloc: Global, words: &Vec<String>) -> Result<Option<String>, AllocError> {
    match words.as_slice() {
        [first, _command, third, ..] if first.as_str() == "help" => {
            let word = shown(alloc, third.as_bytes())?;
            Ok(Some(format!(in alloc;
                "help: \"{word}\" is a word too many: it takes one command"
            )?))
        }
        [first, _word, ..] if first.as_str() == "--help" || first.as_str() == "-h" => {
            Ok(Some(format!(in alloc; "\"{first}\" stands alone, or after one command")?))
        }
        _ => Ok(None),
    }
}

// Returns whether the words begin with `check --whole`.
fn asks_for_whole(words: &Vec<String>) -> bool {
    match words.as_slice() {
        [first, second, ..] => first.as_str() == "check" && second.as_str() == "--whole",
        _ => false,
    }
}

// Returns the word at a place after the command's name, counted from 1, or after the word `--whole` behind it.
fn word_at<'a>(words: &'a Vec<String>, is_whole: bool, at: usize) -> Option<&'a String> {
    if is_whole {
        words.get(at.saturating_add(1))
    } else {
        words.get(at)
    }
}

// Returns whether a word after the first so many is this one.
fn has_word(words: &Vec<String>, from: usize, word: &str) -> bool {
    for other in words.iter().skip(from) {
        if other.as_str() == word {
            return true;
        }
    }
    false
}

// Returns where a word stands that begins with `--`, if it stands elsewhere.
fn misplaced(words: &Vec<String>) -> Option<&'static str> {
    if has_word(words, 0, "--follow") {
        return Some(
            "\"--follow\" goes right after the command's name, which is replay, sessions, limiter or actors",
        );
    }
    let from = if asks_for_whole(words) { 2 } else { 0 };
    if has_word(words, from, "--whole") {
        return Some("\"--whole\" goes right after the command's name, which is check");
    }
    None
}

/// Returns in one sentence why words are no command: the word that is wrong, and the form expected there. For words
/// that are a command it says that nothing is wrong.
pub fn complaint(alloc: Global, words: &Vec<String>) -> Result<String, AllocError> {
    let Some(command) = words.first() else {
        return format!(in alloc;
            "usage: monoio COMMAND WORD .. < INPUT; COMMAND is {COMMANDS}; monoio --help says more"
        );
    };
    if let Some(text) = help_complaint(alloc, words)? {
        return Ok(text);
    }
    if let Some(text) = misplaced(words) {
        return String::from_str(alloc, text);
    }
    let command = asked_of(words, command.as_str());
    if !is_command(command) {
        let command = shown(alloc, command.as_bytes())?;
        return format!(in alloc;
            "\"{command}\" is no command: {COMMANDS}; monoio --help says more"
        );
    }
    let is_whole = asks_for_whole(words);
    for at in 1..6usize {
        let word = word_at(words, is_whole, at);
        if let Some(text) = complaint_at(alloc, command, place_at(command, at), word)? {
            return Ok(text);
        }
    }
    String::from_str(alloc, "nothing is wrong")
}
