// The forms of the lines that each command reads.

// The form of each event line.
const EVENTS: [&str; 16] = [
    "spawn",
    "wake TASK",
    "sleep NANOS",
    "reset SLEEP NANOS",
    "drop-sleep SLEEP",
    "elapsed SLEEP",
    "drop-join TASK",
    "finished TASK",
    "block OUTPUT",
    "drop-job JOB",
    "job-finished JOB",
    "job-end JOB ran, or job-end JOB canceled",
    "turn; STEP; pending, or turn; STEP; ready OUTPUT, with any number of steps",
    "clock NANOS",
    "remote TASK",
    "drain",
];

// The forms of a turn's steps and ends that are no event lines.
const STEPS: [&str; 5] = [
    "poll SLEEP",
    "join TASK",
    "job JOB",
    "pending",
    "ready OUTPUT",
];

// The forms of a journal's lines that are no events.
const JOURNAL: [&str; 3] = ["now NANOS", "park, or park MILLIS", "main OUTPUT"];

const SCRIPT: [&str; 11] = [
    "limits TASKS JOBS SLEEPS",
    "task",
    "spawn KIND",
    "join TASK",
    "detach TASK",
    "await-sleep NANOS",
    "block OUTPUT",
    "await-job JOB",
    "drop-job JOB",
    "yield",
    "done OUTPUT",
];

const SESSIONS: [&str; 7] = [
    "open MILLIS",
    "beat SESSION",
    "close SESSION",
    "acquire SESSION KEY",
    "release SESSION KEY",
    "owner KEY",
    "clock NANOS",
];

const LIMITER: [&str; 6] = [
    "bucket TOKENS TICKS",
    "take BUCKET TOKENS",
    "retry BASE CAP ATTEMPTS",
    "fail RETRY",
    "done RETRY",
    "clock NANOS",
];

const ACTORS: [&str; 7] = [
    "actor",
    "send FROM TO MESSAGE, or in a turn send TO MESSAGE",
    "timeout ACTOR MILLIS",
    "turn; send TO MESSAGE; stay, or turn; send TO MESSAGE; stop, with any number of sends",
    "stay",
    "stop",
    "clock NANOS",
];

// The forms of the reports in a journal.
const REPORTS: [&str; 21] = [
    "task TASK",
    "queued",
    "noted",
    "nothing",
    "sleep SLEEP",
    "armed",
    "elapsed",
    "dropped, or dropped OUTPUT",
    "job JOB",
    "yes",
    "no",
    "ended, or ended TASK",
    "pending",
    "ready, or ready OUTPUT",
    "canceled",
    "refused idle, no-task, no-timer, no-handle, taken, at-capacity, invalid, no-pool or ended",
    "turn TASK; REPLY; idle, with a reply for each step, and idle, again, done or gone at its end",
    "fired, or fired SLEEP .., with a blank before each sleep",
    "listed",
    "unlisted",
    "drained, or drained TASK .., with a blank before each task",
];

// Returns whether the form begins with this word.
fn begins_with(form: &str, head: &[u8]) -> bool {
    match form.split([' ', ',', ';']).next() {
        Some(first) => first.as_bytes() == head,
        None => false,
    }
}

// Returns the first of the forms that begins with this word.
fn find(forms: &'static [&'static str], head: &[u8]) -> Option<&'static str> {
    for form in forms {
        if begins_with(form, head) {
            return Some(form);
        }
    }
    None
}

// Returns the form of an event, or of a step of a turn.
fn event_form(head: &[u8]) -> Option<&'static str> {
    match find(EVENTS.as_slice(), head) {
        Some(form) => Some(form),
        None => find(STEPS.as_slice(), head),
    }
}

/// Returns the form of a command's line or of a part of it that begins with this word, if there is one.
pub(crate) fn form_of(command: &str, head: &[u8]) -> Option<&'static str> {
    match command {
        "replay" => event_form(head),
        "check" => match find(JOURNAL.as_slice(), head) {
            Some(form) => Some(form),
            None => event_form(head),
        },
        "run" => find(SCRIPT.as_slice(), head),
        "sessions" => find(SESSIONS.as_slice(), head),
        "limiter" => find(LIMITER.as_slice(), head),
        "actors" => find(ACTORS.as_slice(), head),
        _ => None,
    }
}

/// Returns the form of a report that begins with this word, if there is one.
pub(crate) fn report_form(head: &[u8]) -> Option<&'static str> {
    find(REPORTS.as_slice(), head)
}
