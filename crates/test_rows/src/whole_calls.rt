// The whole program over memory: the number with which it exits, its output, and its causes.
use crate::runs::{ROOM, clock_at, listed, split};
use mono_main::{JoinSpawner, exits};
use mono_model::Host;
use mono_script::{ListClock, MemSink, MemSource};
use mono_text::WriteSink;
use std::alloc::Global;
use std::io::{self, ErrorKind, Write};
use std::process::ExitCode;

/// A call with its input, and the expected number, output and causes.
#[derive(Clone, Copy)]
struct Row {
    called: &'static str,
    input: &'static [u8],
    status: u8,
    output: &'static [u8],
    causes: &'static [u8],
}

/// The calls that a status of the command ends.
fn commands() -> [Row; 8] {
    [
        Row {
            called: "monoio replay attached 16 16 16",
            input: b"spawn\nturn; sleep 0; poll 0; ready 7\n",
            status: 0,
            output: b"task 0\nturn 0; sleep 0; ready; done\n",
            causes: b"",
        },
        Row {
            called: "monoio replay attached 16 16 16",
            input: b"spawn\nbad\n",
            status: 3,
            output: b"bad line 2\n",
            causes: b"monoio: line 2: unknown word \"bad\"\n",
        },
        Row {
            called: "monoio replay attached 16 16",
            input: b"spawn\n",
            status: 2,
            output: b"",
            causes: b"monoio: replay: a word is missing: SLEEPS is a number below 2^64\n",
        },
        Row {
            called: "monoio replay attached 16 16 16 16",
            input: b"spawn\n",
            status: 2,
            output: b"",
            causes: b"monoio: replay: \"16\" is a word too many: the input is standard input, as in < FILE\n",
        },
        Row {
            called: "monoio check attached 16 16 16",
            input: b"spawn -> task 1\n",
            status: 11,
            output: b"no 1\n",
            causes: b"monoio: line 1: the machine answers: task 0\n",
        },
        Row {
            called: "monoio run 0 0",
            input: b"limits 1 1 1\ntask\ndone 5\n",
            status: 8,
            output: b"spawn -> task 0\ndrop-join 0 -> dropped\n",
            causes: b"monoio: the run had no turn left; the output is what it did\nmonoio: task 0 is queued\n",
        },
        Row {
            called: "monoio run 0 9",
            input: b"limits 0 1 1\ntask\ndone 5\n",
            status: 10,
            output: b"spawn -> refused at-capacity\n",
            causes: b"monoio: there is no place for the main task: the script's limit of tasks is 0\n",
        },
        Row {
            called: "monoio run 2 9",
            input: b"limits 1 1 1\ntask\ndone 5\n",
            status: 0,
            output: b"spawn -> task 0\nnow 0\nturn; ready 5 -> turn 0; done\ndrop-join 0 -> dropped 5\nmain 5\n",
            causes: b"",
        },
    ]
}

/// The calls for a page, and those whose lines are answered one by one.
fn others() -> [Row; 7] {
    [
        Row {
            called: "monoio --version",
            input: b"",
            status: 0,
            output: b"monoio 0.1.0, after the crate monoio 0.2.4\n",
            causes: b"",
        },
        Row {
            called: "monoio wait 1",
            input: b"",
            status: 2,
            output: b"",
            causes: b"monoio: \"wait\" is no command: replay, run, load, sessions, limiter, actors or check; monoio --help says more\n",
        },
        Row {
            called: "monoio replay --follow attached 16 16 16",
            input: b"spawn\nspawn\n",
            status: 0,
            output: b"task 0\ntask 1\n",
            causes: b"",
        },
        Row {
            called: "monoio replay --follow attached 16 16 16",
            input: b"spawn\nbad\nspawn\n",
            status: 3,
            output: b"task 0\n",
            causes: b"monoio: line 2: unknown word \"bad\"\n",
        },
        Row {
            called: "monoio replay --follow attached 16",
            input: b"spawn\n",
            status: 2,
            output: b"",
            causes: b"monoio: replay: a word is missing: JOBS is a number below 2^64\n",
        },
        Row {
            called: "monoio run --follow 0 9",
            input: b"limits 1 1 1\ntask\ndone 5\n",
            status: 2,
            output: b"",
            causes: b"monoio: --follow goes with replay, sessions, limiter and actors alone\n",
        },
        Row {
            called: "monoio replay attached 16 16 16 --follow",
            input: b"",
            status: 2,
            output: b"",
            causes: b"monoio: \"--follow\" goes right after the command's name, which is replay, sessions, limiter or actors\n",
        },
    ]
}

/// The streams of a call in memory.
#[derive(Drop)]
struct Streams {
    source: MemSource,
    sink: MemSink,
    causes: MemSink,
    clock: ListClock,
}

// Returns streams with this input, whose read with this number fails, and whose output has this room.
fn streams_over(alloc: Global, input: &[u8], read: Option<u64>, room: usize) -> Option<Streams> {
    Some(Streams {
        source: MemSource::new(
            Vec::from_slice(alloc, input).ok()?,
            listed(alloc, read).ok()?,
        ),
        sink: MemSink::new(alloc, room, Vec::new(alloc)).ok()?,
        causes: MemSink::new(alloc, ROOM, Vec::new(alloc)).ok()?,
        clock: clock_at(alloc, 0)?,
    })
}

// Returns whether the call over these streams exits so, and leaves no thread.
fn is_met<R: Host + Send + 'static>(
    rt: &R,
    alloc: Global,
    streams: Streams,
    waits: bool,
    row: &Row,
) -> Option<bool> {
    let called = split(alloc, row.called).ok()?;
    let Streams {
        mut source,
        mut sink,
        mut causes,
        clock,
    } = streams;
    let mut spawner = JoinSpawner::new(alloc);
    let status = exits(
        rt,
        alloc,
        Ok(called),
        waits,
        &mut source,
        &mut sink,
        &mut causes,
        clock,
        &mut spawner,
    );
    let is_told = sink.bytes() == row.output && causes.bytes() == row.causes;
    Some(status == ExitCode::from(row.status) && is_told && spawner.running() == 0)
}

// Returns the first of the rows that is not met.
fn first_unmet<R: Host + Send + 'static>(rt: &R, alloc: Global, rows: &[Row]) -> Option<usize> {
    for (i, row) in rows.iter().enumerate() {
        let streams = streams_over(alloc, row.input, None, ROOM);
        let met = streams.and_then(|streams| is_met(rt, alloc, streams, false, row));
        if met != Some(true) {
            return Some(i);
        }
    }
    None
}

#[test]
fn each_status_has_its_output_and_its_cause(rt: HostRuntime) {
    assert_eq!(&rt; first_unmet(&rt, rt.alloc(), &commands()), None);
    assert_eq!(&rt; first_unmet(&rt, rt.alloc(), &others()), None);
}

/// Calls over streams that fail, or that a person at a terminal gives: the read that fails, the room for the output, and
/// whether a person is there.
fn at_streams() -> [(Option<u64>, usize, bool, Row); 4] {
    let plain = commands()[0];
    [
        (
            Some(0),
            ROOM,
            false,
            Row {
                status: 4,
                output: b"",
                causes: b"monoio: standard input can't be read\n",
                ..plain
            },
        ),
        (
            None,
            5,
            false,
            Row {
                status: 5,
                output: b"task ",
                causes: b"monoio: standard output can't be written\n",
                ..plain
            },
        ),
        (
            None,
            ROOM,
            true,
            Row {
                causes: b"monoio: reading lines from standard input; end with ^D at the beginning of a line\n",
                ..plain
            },
        ),
        (None, ROOM, true, others()[0]),
    ]
}

#[test]
fn a_stream_that_fails_has_its_cause(rt: HostRuntime) {
    for (read, room, waits, row) in at_streams() {
        let streams = streams_over(rt.alloc(), row.input, read, room);
        let met = streams.and_then(|streams| is_met(&rt, rt.alloc(), streams, waits, &row));
        assert!(&rt; met == Some(true));
    }
}

/// A writer whose reader has closed the pipe.
#[derive(Drop)]
struct ClosedPipe;

impl Write for ClosedPipe {
    fn write(&mut self, _: &[u8]) -> io::Result<usize> {
        Err(io::Error::from(ErrorKind::BrokenPipe))
    }

    fn flush(&mut self) -> io::Result<()> {
        Ok(())
    }
}

// Returns the status of a call whose words are these, over an output that nobody reads, and whether nothing was said.
fn without_reader<R: Host + Send + 'static>(
    rt: &R,
    alloc: Global,
    called: io::Result<Vec<String>>,
) -> Option<(ExitCode, bool)> {
    let Streams {
        mut source,
        sink: _,
        mut causes,
        clock,
    } = streams_over(alloc, b"spawn\n", None, ROOM)?;
    let mut sink = WriteSink::new(ClosedPipe);
    let mut spawner = JoinSpawner::new(alloc);
    let status = exits(
        rt,
        alloc,
        called,
        false,
        &mut source,
        &mut sink,
        &mut causes,
        clock,
        &mut spawner,
    );
    Some((status, causes.bytes().is_empty()))
}

#[test]
fn a_closed_pipe_is_no_cause(rt: HostRuntime) {
    let called = split(rt.alloc(), "monoio replay attached 1 1 1");
    let called = called.map_err(|_| io::Error::from(ErrorKind::OutOfMemory));
    assert!(&rt; without_reader(&rt, rt.alloc(), called) == Some((ExitCode::from(5), true)));
}

#[test]
fn words_that_cannot_be_read_have_a_status(rt: HostRuntime) {
    let memory = Err(io::Error::from(ErrorKind::OutOfMemory));
    assert!(&rt; without_reader(&rt, rt.alloc(), memory) == Some((ExitCode::from(6), false)));
    let other = Err(io::Error::from(ErrorKind::InvalidData));
    assert!(&rt; without_reader(&rt, rt.alloc(), other) == Some((ExitCode::from(2), false)));
}
