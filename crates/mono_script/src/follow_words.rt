// The words of the call that the program makes.
ghost use Rattle.std.specs.Prelude.{◌≡◌, ◌↔◌, true, Some, codes, if◌then◌else◌, map, remove, slice_get, string_bytes};

/// The words of a call, and whether it answers each line at once.
#[derive(Drop)]
pub struct CallWords {
    /// The program calls `follow_command` with the words if this is true, else `explained`.
    pub follows: bool,
    /// The words without `--follow`.
    pub words: Vec<String>,
}

// Returns whether the second word is `--follow`.
fn is_following(words: &Vec<String>) -> bool
    ensures { result ≡ true ↔ slice_get (map string_bytes words.now.items) 1 ≡ Some (codes "--follow") }
{
    match words.get(1) {
        Some(second) => second.as_str() == "--follow",
        None => false,
    }
}

/// Returns which call the program makes for the words after its name, and with which words. The call follows if and only
/// if the second word is `--follow` (`follows`). Its words are then all others in their order, else all (`words`).
pub fn call_words(all: Vec<String>) -> CallWords
    ensures follows { result.follows ≡ true ↔ slice_get (map string_bytes all.items) 1 ≡ Some (codes "--follow") }
    ensures words { result.words.items ≡ (if result.follows then remove all.items 1 else all.items) }
{
    let follows = is_following(&all);
    let mut words = all;
    if follows {
        words.remove(1);
    }
    CallWords { follows, words }
}
