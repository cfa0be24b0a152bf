// The answers of the top call if a read or a write fails, and if the room ends. Inputs that are no text or lack their
// last line feed, a clock that is read, and the longest input.
use crate::runs::{Outside, PLAIN, ROOM, ends_so};
use mono_model::Host;
use std::alloc::{AllocError, Global};

const REPLAY: &str = "replay attached 16 16 16";

const CHECK: &str = "check attached 16 16 16";

const SESSIONS: &str = "sessions 4 4";

const RUN: &str = "run 0 9";

const SCRIPT: &[u8] = b"limits 1 1 1\ntask\ndone 5\n";

const RAN: &[u8] =
    b"spawn -> task 0\nnow 0\nturn; ready 5 -> turn 0; done\ndrop-join 0 -> dropped 5\nmain 5\n";

const DEADLINE_IS_NOW: &[u8] = b"spawn\nturn; sleep 0; poll 0; ready 7\n";

const DONE: &[u8] = b"task 0\nturn 0; sleep 0; ready; done\n";

/// The journal of a task that waits for a sleep.
const AWAITED: &[u8] =
    b"spawn -> task 0\nnow 0\nturn; sleep 100000000; poll 0; pending -> turn 0; sleep 0; pending; idle\nnow 0\npark 64\ndrain -> drained\nclock 64000000 -> fired\nnow 64000000\npark 36\ndrain -> drained\nclock 100000000 -> fired 0\nnow 100000000\nturn; poll 0; drop-sleep 0; ready 5 -> turn 0; ready; dropped; done\ndrop-join 0 -> dropped 5\nmain 5\n";

/// Words and an input, the failures outside, and the expected status and output.
#[derive(Clone, Copy)]
struct Case {
    words: &'static str,
    input: &'static [u8],
    outside: Outside,
    status: u8,
    output: &'static [u8],
}

/// Returns a case whose read with this number fails.
fn unread(
    words: &'static str,
    input: &'static [u8],
    call: u64,
    status: u8,
    output: &'static [u8],
) -> Case {
    Case {
        words,
        input,
        outside: Outside {
            read: Some(call),
            write: None,
            room: ROOM,
            millis: 0,
        },
        status,
        output,
    }
}

/// Returns a case whose write with this number fails, or whose room is this.
fn unwritten(
    words: &'static str,
    input: &'static [u8],
    call: Option<u64>,
    room: usize,
    status: u8,
    output: &'static [u8],
) -> Case {
    Case {
        words,
        input,
        outside: Outside {
            read: None,
            write: call,
            room,
            millis: 0,
        },
        status,
        output,
    }
}

/// Returns a case with a bad line.
fn bad(words: &'static str, input: &'static [u8], output: &'static [u8]) -> Case {
    Case {
        words,
        input,
        outside: PLAIN,
        status: 3,
        output,
    }
}

/// Returns a case whose read and write with this number fail: the second read sees the end of the input, and one write
/// is enough.
fn fault_at(
    words: &'static str,
    input: &'static [u8],
    output: &'static [u8],
    call: u64,
) -> [Case; 2] {
    let read = if call < 2 {
        unread(words, input, call, 4, b"")
    } else {
        unread(words, input, call, 0, output)
    };
    let write = if call < 1 {
        unwritten(words, input, Some(call), ROOM, 5, b"")
    } else {
        unwritten(words, input, Some(call), ROOM, 0, output)
    };
    [read, write]
}

fn faults() -> [Case; 9] {
    [
        unwritten(REPLAY, DEADLINE_IS_NOW, Some(1), 36, 0, DONE),
        unwritten(REPLAY, DEADLINE_IS_NOW, None, 5, 5, b"task "),
        unwritten(
            REPLAY,
            DEADLINE_IS_NOW,
            None,
            21,
            5,
            b"task 0\nturn 0; sleep ",
        ),
        unwritten(REPLAY, DEADLINE_IS_NOW, None, 0, 5, b""),
        unread(SESSIONS, b"open 1\n", 0, 4, b""),
        unwritten(SESSIONS, b"open 1\n", Some(0), ROOM, 5, b""),
        unwritten(SESSIONS, b"open 1\n", None, 7, 5, b"session"),
        unread(CHECK, AWAITED, 0, 4, b""),
        unwritten(CHECK, AWAITED, Some(0), ROOM, 5, b""),
    ]
}

fn bytes() -> [Case; 10] {
    [
        // no last line feed
        bad(REPLAY, b"spawn", b"bad line 1\n"),
        bad(SESSIONS, b"open 10\nbeat 0", b"bad line 2\n"),
        bad("limiter 4 4", b"bucket 1 1", b"bad line 1\n"),
        bad("actors 2 2", b"actor\nactor", b"bad line 2\n"),
        bad(CHECK, b"spawn -> task 0", b"bad line 1\n"),
        bad(RUN, b"limits 1 1 1\ntask\ndone 5", b"bad line 3\n"),
        // a carriage return
        bad(REPLAY, b"spawn\nspawn\r\n", b"bad line 2\n"),
        bad("limiter 4 4", b"take 0 1\r\n", b"bad line 1\n"),
        // a byte above 127
        bad(REPLAY, b"spawn\nspawn\xff\n", b"bad line 2\n"),
        // with a worker the given clock is read
        Case {
            words: "run 1 10",
            input: b"limits 1 1 1\ntask\ndone 1\n",
            outside: Outside {
                read: None,
                write: None,
                room: ROOM,
                millis: 7,
            },
            status: 0,
            output: b"spawn -> task 0\nnow 7000000\nturn; ready 1 -> turn 0; done\ndrop-join 0 -> dropped 1\nmain 1\n",
        },
    ]
}

// Returns the first of the cases that does not end as expected.
fn first_that_differs<R: Host + Send + 'static>(
    rt: &R,
    alloc: Global,
    cases: &[Case],
) -> Option<usize> {
    for (i, case) in cases.iter().enumerate() {
        if !is_met(rt, alloc, case) {
            return Some(i);
        }
    }
    None
}

fn is_met<R: Host + Send + 'static>(rt: &R, alloc: Global, case: &Case) -> bool {
    let Ok(input) = Vec::from_slice(alloc, case.input) else {
        return false;
    };
    let met = ends_so(
        rt,
        alloc,
        case.words,
        input,
        &case.outside,
        case.output,
        case.status,
    );
    matches!(met, Some(true))
}

#[test]
fn calls_that_fail_and_bytes_that_are_no_text(rt: HostRuntime) {
    assert_eq!(&rt; first_that_differs(&rt, rt.alloc(), &faults()), None);
    assert_eq!(&rt; first_that_differs(&rt, rt.alloc(), &bytes()), None);
}

/// The words, an input and its output.
const ANSWERED: [(&str, &[u8], &[u8]); 2] = [(REPLAY, DEADLINE_IS_NOW, DONE), (RUN, SCRIPT, RAN)];

#[test]
fn each_read_and_write_fails(rt: HostRuntime) {
    for (words, input, output) in ANSWERED {
        for call in 0..4 {
            let cases = fault_at(words, input, output, call);
            assert_eq!(&rt; first_that_differs(&rt, rt.alloc(), &cases), None);
        }
    }
}

// Returns whether an input of this many line feeds ends so.
fn feeds_end_so<R: Host + Send + 'static>(
    rt: &R,
    alloc: Global,
    words: &str,
    len: usize,
    outside: &Outside,
    output: &[u8],
    status: u8,
) -> Option<bool> {
    let input = vec![in alloc; b'\n'; len].ok()?;
    ends_so(rt, alloc, words, input, outside, output, status)
}

/// Returns failures outside of the read with this number alone.
fn unread_at(call: u64) -> Outside {
    Outside {
        read: Some(call),
        write: None,
        room: ROOM,
        millis: 0,
    }
}

// An input that takes four reads: each of them fails in turn.
#[test]
fn each_block_fails(rt: HostRuntime) {
    for words in [REPLAY, RUN] {
        for call in 0..4 {
            let outside = unread_at(call);
            let met = feeds_end_so(&rt, rt.alloc(), words, 200000, &outside, b"", 4);
            assert!(&rt; matches!(met, Some(true)));
        }
    }
}

#[test]
fn one_byte_is_too_many(rt: HostRuntime) {
    assert!(&rt;
        matches!(
            feeds_end_so(
                &rt,
                rt.alloc(),
                REPLAY,
                16777216,
                &PLAIN,
                b"bad line 1\n",
                3
            ),
            Some(true)
        )
    );
    assert!(&rt;
        matches!(
            feeds_end_so(&rt, rt.alloc(), REPLAY, 16777217, &PLAIN, b"", 7),
            Some(true)
        )
    );
}
