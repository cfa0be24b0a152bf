// A strategy for blocking jobs and limits after a word.
ghost use Rattle.std.specs.Prelude.{◌≡◌, ◌∷◌, [], IfSome, IfNone, map, string_bytes};
ghost use Rattle.mono_script.specs.Words.{AreLimits, SayFlagged, SayLimits, strategy_text};

use mono_machine::Limits;
use mono_replay::Blocking;
use mono_text::whole_number;

fn strategy(word: &[u8]) -> Option<Blocking>
    ensures found { IfSome result (λ s. word.now ≡ strategy_text s) }
    ensures none { IfNone result ((s : Blocking) → word.now ≡ strategy_text s → ⊥) }
{
    if word == b"attached".as_slice() {
        Some(Blocking::Attached)
    } else if word == b"local".as_slice() {
        Some(Blocking::ExecuteLocal)
    } else if word == b"panic".as_slice() {
        Some(Blocking::Panic)
    } else {
        None
    }
}

fn read_limits(tasks: &[u8], jobs: &[u8], sleeps: &[u8]) -> Option<Limits>
    ensures found { IfSome result (λ x. AreLimits tasks.now jobs.now sleeps.now x) }
    ensures none { IfNone result ((x : Limits) → AreLimits tasks.now jobs.now sleeps.now x → ⊥) }
{
    let tasks = whole_number(tasks)?;
    let jobs = whole_number(jobs)?;
    let sleeps = whole_number(sleeps)?;
    Some(Limits {
        tasks,
        jobs,
        sleeps,
    })
}

fn read_four(
    blocking: &[u8],
    tasks: &[u8],
    jobs: &[u8],
    sleeps: &[u8],
) -> Option<(Limits, Blocking)>
    ensures found { IfSome result (λ x. (blocking.now ≡ strategy_text x.1) × AreLimits tasks.now jobs.now sleeps.now x.0) }
    ensures none { IfNone result ((l : Limits) (s : Blocking) → blocking.now ≡ strategy_text s → AreLimits tasks.now jobs.now sleeps.now l → ⊥) }
{
    let blocking = strategy(blocking)?;
    let limits = read_limits(tasks, jobs, sleeps)?;
    Some((limits, blocking))
}

fn read_five(
    word: &[u8],
    blocking: &[u8],
    tasks: &[u8],
    jobs: &[u8],
    sleeps: &[u8],
    name: &[u8],
) -> Option<(Limits, Blocking)>
    ensures found { IfSome result (λ x. SayLimits name.now (word.now ∷ blocking.now ∷ tasks.now ∷ jobs.now ∷ sleeps.now ∷ []) x.0 x.1) }
    ensures none { IfNone result ((l : Limits) (s : Blocking) → SayLimits name.now (word.now ∷ blocking.now ∷ tasks.now ∷ jobs.now ∷ sleeps.now ∷ []) l s → ⊥) }
{
    if word != name {
        return None;
    }
    read_four(blocking, tasks, jobs, sleeps)
}

// Returns the limits and the strategy after the name, if these are the words.
pub(crate) fn strategy_and_limits(words: &Vec<String>, name: &[u8]) -> Option<(Limits, Blocking)>
    ensures found { IfSome result (λ x. SayLimits name.now (map string_bytes words.now.items) x.0 x.1) }
    ensures none { IfNone result ((l : Limits) (s : Blocking) → SayLimits name.now (map string_bytes words.now.items) l s → ⊥) }
{
    let [word, blocking, tasks, jobs, sleeps] = words.as_slice() else {
        return None;
    };
    read_five(
        word.as_bytes(),
        blocking.as_bytes(),
        tasks.as_bytes(),
        jobs.as_bytes(),
        sleeps.as_bytes(),
        name,
    )
}

fn read_six(
    word: &[u8],
    second: &[u8],
    blocking: &[u8],
    tasks: &[u8],
    jobs: &[u8],
    sleeps: &[u8],
    name: &[u8],
    flag: &[u8],
) -> Option<(Limits, Blocking)>
    ensures found { IfSome result (λ x. SayFlagged name.now flag.now (word.now ∷ second.now ∷ blocking.now ∷ tasks.now ∷ jobs.now ∷ sleeps.now ∷ []) x.0 x.1) }
    ensures none { IfNone result ((l : Limits) (s : Blocking) → SayFlagged name.now flag.now (word.now ∷ second.now ∷ blocking.now ∷ tasks.now ∷ jobs.now ∷ sleeps.now ∷ []) l s → ⊥) }
{
    if word != name {
        return None;
    }
    if second != flag {
        return None;
    }
    read_four(blocking, tasks, jobs, sleeps)
}

// Returns the limits and the strategy after the name and this second word, if these are the words.
pub(crate) fn behind_flag(
    words: &Vec<String>,
    name: &[u8],
    flag: &[u8],
) -> Option<(Limits, Blocking)>
    ensures found { IfSome result (λ x. SayFlagged name.now flag.now (map string_bytes words.now.items) x.0 x.1) }
    ensures none { IfNone result ((l : Limits) (s : Blocking) → SayFlagged name.now flag.now (map string_bytes words.now.items) l s → ⊥) }
{
    let [word, second, blocking, tasks, jobs, sleeps] = words.as_slice() else {
        return None;
    };
    read_six(
        word.as_bytes(),
        second.as_bytes(),
        blocking.as_bytes(),
        tasks.as_bytes(),
        jobs.as_bytes(),
        sleeps.as_bytes(),
        name,
        flag,
    )
}
