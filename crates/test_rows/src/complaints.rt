// The complaints about words that are no command.
use mono_script::complaint;
use std::alloc::Global;

// Returns the words of a text, or fewer if memory runs out.
pub(crate) fn words_of(alloc: Global, text: &str) -> Vec<String> {
    let mut words = Vec::new(alloc);
    for word in text.split(' ') {
        if !word.is_empty() {
            if let Ok(word) = String::from_str(alloc, word) {
                let _ = words.push(word);
            }
        }
    }
    words
}

// Returns whether this sentence is the complaint about the words.
fn says(alloc: Global, words: &Vec<String>, sentence: &str) -> bool {
    match complaint(alloc, words) {
        Ok(said) => said.as_str() == sentence,
        Err(_) => false,
    }
}

// Words, and the complaints about them.
const CASES: [(&str, &str); 29] = [
    (
        "replay attached 1 1 1 --follow",
        "\"--follow\" goes right after the command's name, which is replay, sessions, limiter or actors",
    ),
    (
        "--follow replay attached 1 1 1",
        "\"--follow\" goes right after the command's name, which is replay, sessions, limiter or actors",
    ),
    (
        "check attached 1 1 1 --whole",
        "\"--whole\" goes right after the command's name, which is check",
    ),
    (
        "replay --whole attached 1 1 1",
        "\"--whole\" goes right after the command's name, which is check",
    ),
    (
        "",
        "usage: monoio COMMAND WORD .. < INPUT; COMMAND is replay, run, load, sessions, limiter, actors or check; monoio --help says more",
    ),
    (
        "reply attached 1 1 1",
        "\"reply\" is no command: replay, run, load, sessions, limiter, actors or check; monoio --help says more",
    ),
    (
        "help reply",
        "\"reply\" is no command: replay, run, load, sessions, limiter, actors or check; monoio --help says more",
    ),
    (
        "help replay run",
        "help: \"run\" is a word too many: it takes one command",
    ),
    (
        "--help replay",
        "\"--help\" stands alone, or after one command",
    ),
    (
        "replay detached 1 1 1",
        "replay: \"detached\": STRATEGY is attached, local or panic",
    ),
    (
        "replay local 1 01 1",
        "replay: \"01\": JOBS is a number below 2^64",
    ),
    (
        "replay local 1 1",
        "replay: a word is missing: SLEEPS is a number below 2^64",
    ),
    (
        "replay local 1 1 1 1",
        "replay: \"1\" is a word too many: the input is standard input, as in < FILE",
    ),
    ("load 7 1 x", "load: \"x\" is a word too many"),
    (
        "load \x1b[2J 1",
        "load: \"\\x1b[2J\": SEED is a number below 2^64",
    ),
    (
        "load 7 100001",
        "load: \"100001\": COUNT is a number, at most 100000",
    ),
    (
        "load 18446744073709551616 1",
        "load: \"18446744073709551616\": SEED is a number below 2^64",
    ),
    ("run 65 1", "run: \"65\": WORKERS is a number, at most 64"),
    (
        "run 0 65537",
        "run: \"65537\": TURNS is a number, at most 65536",
    ),
    (
        "sessions 1 1 day.events",
        "sessions: \"day.events\" is a word too many: the input is standard input, as in < FILE",
    ),
    (
        "limiter 1",
        "limiter: a word is missing: RETRIES is a number below 2^64",
    ),
    (
        "actors -1 1",
        "actors: \"-1\": ACTORS is a number below 2^64",
    ),
    (
        "check attached 1 1 1.0",
        "check: \"1.0\": SLEEPS is a number below 2^64",
    ),
    ("check attached 1 1 1", "nothing is wrong"),
    (
        "check --whole other 1 1 1",
        "check: \"other\": STRATEGY is attached, local or panic",
    ),
    (
        "check --whole attached 1 1",
        "check: a word is missing: SLEEPS is a number below 2^64",
    ),
    (
        "check --whole attached 1 1 1 1",
        "check: \"1\" is a word too many: the input is standard input, as in < FILE",
    ),
    (
        "check attached --whole 1 1 1",
        "\"--whole\" goes right after the command's name, which is check",
    ),
    ("check --whole attached 1 1 1", "nothing is wrong"),
];

#[test]
fn the_wrong_word_is_named(rt: HostRuntime) {
    for (text, sentence) in CASES {
        assert!(&rt; says(rt.alloc(), &words_of(rt.alloc(), text), sentence));
    }
}
