// Commands that answer each line as soon as it was read.
use crate::complaints::words_of;
use mono_script::{MemSink, MemSource, Status, follow_command};
use std::alloc::Global;
use std::process::Abort;

const ROOM: usize = 1048576;

fn listed<R: Abort>(rt: &R, alloc: Global, call: Option<u64>) -> Vec<u64> {
    let mut calls = Vec::new(alloc);
    if let Some(call) = call {
        calls.push(call).expect(rt, "memory");
    }
    calls
}

// Words and an input, which read and which write fails, and the expected status, next line and output.
#[derive(Clone, Copy)]
struct Case {
    words: &'static str,
    input: &'static [u8],
    read: Option<u64>,
    write: Option<u64>,
    status: Status,
    line: usize,
    output: &'static [u8],
}

const CASES: [Case; 7] = [
    Case {
        words: "replay attached 16 16 16",
        input: b"spawn\nspawn\n",
        read: None,
        write: None,
        status: Status::Done,
        line: 3,
        output: b"task 0\ntask 1\n",
    },
    Case {
        words: "replay attached 16 16 16",
        input: b"spawn\nwake 00\nspawn\n",
        read: None,
        write: None,
        status: Status::BadLine,
        line: 2,
        output: b"task 0\n",
    },
    Case {
        words: "replay attached 16 16 16",
        input: b"spawn\nspawn",
        read: None,
        write: None,
        status: Status::BadLine,
        line: 2,
        output: b"task 0\n",
    },
    Case {
        words: "sessions 4 4",
        input: b"open 5\nacquire 0 1\nclock 5000000\n",
        read: Some(1),
        write: None,
        status: Status::ReadFault,
        line: 4,
        output: b"session 0\nheld\nclosed 0\n",
    },
    Case {
        words: "limiter 4 4",
        input: b"bucket 2 10\ntake 0 2\n",
        read: None,
        write: Some(0),
        status: Status::WriteFault,
        line: 3,
        output: b"",
    },
    Case {
        words: "actors 4 4",
        input: b"actor\nactor\nsend 0 1 7\nturn; stay\n",
        read: None,
        write: None,
        status: Status::Done,
        line: 5,
        output: b"actor 0\nactor 1\nqueued\nturn 1; from 0 7; idle\n",
    },
    Case {
        words: "actors 4 4",
        input: b"",
        read: None,
        write: None,
        status: Status::Done,
        line: 1,
        output: b"",
    },
];

// Returns whether the case ends as expected.
fn ends_so<R: Abort>(rt: &R, alloc: Global, case: &Case) -> bool {
    let words = words_of(alloc, case.words);
    let input = Vec::from_slice(alloc, case.input).expect(rt, "memory");
    let mut source = MemSource::new(input, listed(rt, alloc, case.read));
    let mut sink = MemSink::new(alloc, ROOM, listed(rt, alloc, case.write)).expect(rt, "memory");
    match follow_command(alloc, &words, &mut source, &mut sink) {
        Some(ended) => {
            let is_output = sink.bytes() == case.output;
            is_output && ended.status() == case.status && ended.line() == case.line
        }
        None => false,
    }
}

#[test]
fn lines_are_answered_up_to_the_first_bad_one(rt: HostRuntime) {
    for case in CASES {
        assert!(&rt; ends_so(&rt, rt.alloc(), &case));
    }
}

// Returns `count` lines that make tasks.
fn spawns<R: Abort>(rt: &R, alloc: Global, count: usize) -> Vec<u8> {
    let mut input = Vec::new(alloc);
    for _ in 0..count {
        input.extend_from_slice(b"spawn\n").expect(rt, "memory");
    }
    input
}

// Returns whether each line of several blocks is answered.
fn answers_all<R: Abort>(rt: &R, alloc: Global) -> bool {
    let words = words_of(alloc, "replay attached 30000 1 1");
    let mut source = MemSource::new(spawns(rt, alloc, 30000), Vec::new(alloc));
    let mut sink = MemSink::new(alloc, ROOM, Vec::new(alloc)).expect(rt, "memory");
    match follow_command(alloc, &words, &mut source, &mut sink) {
        Some(ended) => ended.line() == 30001 && sink.bytes().ends_with(b"task 29999\n".as_slice()),
        None => false,
    }
}

#[test]
fn blocks_are_answered_to_the_last_line(rt: HostRuntime) {
    assert!(&rt; answers_all(&rt, rt.alloc()));
}
