// The words that each command takes.
use mono_text::whole_number;

/// The form of a place after the command's name.
#[derive(Clone, Copy)]
pub(crate) enum Place {
    /// The strategy for blocking jobs.
    Strategy,
    /// A number of this name, at most this great.
    Number(&'static str, u64),
}

/// The names of the commands.
pub(crate) const COMMANDS: &str = "replay, run, load, sessions, limiter, actors or check";

/// Returns whether it is the name of a command.
pub(crate) fn is_command(name: &str) -> bool {
    place_at(name, 1).is_some()
}

fn free(name: &'static str) -> Option<Place> {
    Some(Place::Number(name, u64::MAX))
}

fn limits(at: usize) -> Option<Place> {
    match at {
        1 => Some(Place::Strategy),
        2 => free("TASKS"),
        3 => free("JOBS"),
        4 => free("SLEEPS"),
        _ => None,
    }
}

fn two(at: usize, first: Option<Place>, second: Option<Place>) -> Option<Place> {
    match at {
        1 => first,
        2 => second,
        _ => None,
    }
}

/// Returns the form of a place after a command's name, counted from 1; None after the last place.
pub(crate) fn place_at(command: &str, at: usize) -> Option<Place> {
    match command {
        "replay" | "check" => limits(at),
        "run" => two(
            at,
            Some(Place::Number("WORKERS", 64)),
            Some(Place::Number("TURNS", 65536)),
        ),
        "load" => two(at, free("SEED"), Some(Place::Number("COUNT", 100000))),
        "sessions" => two(at, free("SESSIONS"), free("ENTRIES")),
        "limiter" => two(at, free("BUCKETS"), free("RETRIES")),
        "actors" => two(at, free("ACTORS"), free("MESSAGES")),
        _ => None,
    }
}

/// Returns whether the word fits the place.
pub(crate) fn fits(place: Place, word: &str) -> bool {
    match place {
        Place::Strategy => word == "attached" || word == "local" || word == "panic",
        Place::Number(_, most) => match whole_number(word.as_bytes()) {
            Some(number) => number <= most,
            None => false,
        },
    }
}
