// What the words of the command line say.
ghost use Rattle.std.specs.Prelude.{◌≡◌, ◌<◌, ◌≤◌, ◌^◌, ◌∷◌, [], ℕ, true, false, IfNone, IfSome, decimal, map, string_bytes};
ghost use Rattle.lease_core.specs.declared.sizes.Sizes.{Sizes};
ghost use Rattle.lease_server.specs.declared.words.Settings.{Settings};
ghost use Rattle.lease_server.specs.Calls.{FitSettings, SaysSettings, number_words};
ghost use Rattle.lease_server.specs.Arguments.{AreSizes, SaysMoving, SaysStill};

use crate::words::Settings;
use lease_core::Sizes;
use mono_text::whole_number;

/// The most cores of a server.
const MOST_CORES: u64 = 64;

// Returns the number of cores that the word says: from 1 to 64.
#[tactic(auto, using(crate::proofs::ArgumentLemmas::other_cores))]
fn read_cores(word: &[u8]) -> Option<u64>
    ensures found { IfSome result (λ n. (word.now ≡ decimal n) × (0 < n) × (n ≤ 64)) }
    ensures none { IfNone result ((n : ℕ) → 0 < n → n ≤ 64 → word.now ≡ decimal n → ⊥) }
{
    let cores = whole_number(word)?;
    if cores == 0 {
        return None;
    }
    if cores > MOST_CORES {
        return None;
    }
    Some(cores)
}

// Returns the sizes that the five words say.
fn read_sizes(
    sessions: &[u8],
    entries: &[u8],
    buckets: &[u8],
    actors: &[u8],
    messages: &[u8],
) -> Option<Sizes>
    ensures found { IfSome result (λ x. AreSizes sessions.now entries.now buckets.now actors.now messages.now x) }
    ensures none { IfNone result ((x : Sizes) → AreSizes sessions.now entries.now buckets.now actors.now messages.now x → ⊥) }
{
    let sessions = whole_number(sessions)?;
    let entries = whole_number(entries)?;
    let buckets = whole_number(buckets)?;
    let actors = whole_number(actors)?;
    let messages = whole_number(messages)?;
    Some(Sizes {
        sessions,
        entries,
        buckets,
        actors,
        messages,
    })
}

// Returns the settings that the six words say, with clocks that stay at 0 if that is so.
fn read_six(
    cores: &[u8],
    sessions: &[u8],
    entries: &[u8],
    buckets: &[u8],
    actors: &[u8],
    messages: &[u8],
    is_still: bool,
) -> Option<Settings>
    ensures found { IfSome result (λ s. (cores.now ∷ sessions.now ∷ entries.now ∷ buckets.now ∷ actors.now ∷ messages.now ∷ [] ≡ number_words s) × FitSettings s × (s.is_still ≡ is_still)) }
    ensures none { IfNone result ((s : Settings) → cores.now ∷ sessions.now ∷ entries.now ∷ buckets.now ∷ actors.now ∷ messages.now ∷ [] ≡ number_words s → FitSettings s → ⊥) }
{
    let cores = read_cores(cores)?;
    let sizes = read_sizes(sessions, entries, buckets, actors, messages)?;
    Some(Settings {
        cores,
        sizes,
        is_still,
    })
}

// Returns the settings that six words say.
fn read_moving(words: &[String]) -> Option<Settings>
    ensures found { IfSome result (λ s. SaysMoving (map string_bytes words.now) s) }
    ensures none { IfNone result ((s : Settings) → SaysMoving (map string_bytes words.now) s → ⊥) }
{
    let [cores, sessions, entries, buckets, actors, messages] = words else {
        return None;
    };
    read_six(
        cores.as_bytes(),
        sessions.as_bytes(),
        entries.as_bytes(),
        buckets.as_bytes(),
        actors.as_bytes(),
        messages.as_bytes(),
        false,
    )
}

// Returns the settings that the first six of these words say, if the next is `still`.
fn read_still(words: &[String]) -> Option<Settings>
    ensures found { IfSome result (λ s. SaysStill (map string_bytes words.now) s) }
    ensures none { IfNone result ((s : Settings) → SaysStill (map string_bytes words.now) s → ⊥) }
{
    let [cores, sessions, entries, buckets, actors, messages, still] = words else {
        return None;
    };
    if still.as_bytes() != b"still".as_slice() {
        return None;
    }
    read_six(
        cores.as_bytes(),
        sessions.as_bytes(),
        entries.as_bytes(),
        buckets.as_bytes(),
        actors.as_bytes(),
        messages.as_bytes(),
        true,
    )
}

/// Returns the settings that the words after the program's name say: from 1 to 64 cores, the sizes of each core, and
/// then `still` if their clocks stay at 0. Returns None if they say none.
#[tactic(auto, using(crate::proofs::ArgumentLemmas::moving, crate::proofs::ArgumentLemmas::still, crate::proofs::ArgumentLemmas::neither))]
pub fn settings_of(words: &[String]) -> Option<Settings>
    ensures some { IfSome result (SaysSettings (map string_bytes words.now)) }
    ensures none { IfNone result ((s : Settings) → SaysSettings (map string_bytes words.now) s → ⊥) }
{
    match read_moving(words) {
        Some(settings) => Some(settings),
        None => read_still(words),
    }
}
