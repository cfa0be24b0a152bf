// Long inputs, so that memory grows past its first slack: actors, buckets with retries, sessions in one queue, and the
// longest turn of a script.
use crate::runs::{PLAIN, ends_so};
use mono_model::Host;
use mono_text::put_number;
use std::alloc::{AllocError, Global};

/// A text for each number of a range: in it `@` is replaced by the number, and `#` by the number after it.
#[derive(Clone, Copy)]
struct Part {
    from: u64,
    to: u64,
    text: &'static [u8],
}

/// Returns a text for each number below this one.
fn each(to: u64, text: &'static [u8]) -> Part {
    Part { from: 0, to, text }
}

/// Returns a text for each number from 1 to below this one.
fn other(to: u64, text: &'static [u8]) -> Part {
    Part { from: 1, to, text }
}

/// Returns the text unchanged.
fn once(text: &'static [u8]) -> Part {
    Part {
        from: 0,
        to: 1,
        text,
    }
}

fn put_numbered(out: &mut Vec<u8>, text: &[u8], number: u64) -> Result<(), AllocError> {
    for byte in text {
        match *byte {
            b'@' => put_number(out, number)?,
            b'#' => put_number(out, number.wrapping_add(1))?,
            plain => out.push(plain)?,
        }
    }
    Ok(())
}

fn put_part(out: &mut Vec<u8>, part: &Part) -> Result<(), AllocError> {
    for number in part.from..part.to {
        put_numbered(out, part.text, number)?;
    }
    Ok(())
}

fn spelled(alloc: Global, parts: &[Part]) -> Option<Vec<u8>> {
    let mut out = Vec::new(alloc);
    for part in parts {
        put_part(&mut out, part).ok()?;
    }
    Some(out)
}

// Returns whether the call ends with status 0 and this output.
fn is_answered<R: Host + Send + 'static>(
    rt: &R,
    alloc: Global,
    words: &str,
    input: &[Part],
    output: &[Part],
) -> Option<bool> {
    let output = spelled(alloc, output)?;
    let input = spelled(alloc, input)?;
    ends_so(rt, alloc, words, input, &PLAIN, &output, 0)
}

// The first of many actors sends a message to each and one more to itself in its turn. It alone is not idle while it
// sends, and it is queued again after all others.
#[test]
fn many_actors(rt: HostRuntime) {
    let n = 1000;
    let input = [
        each(n, b"actor\n"),
        once(b"send 0 0 7\nturn"),
        each(n, b"; send @ @"),
        once(b"; stay\n"),
        each(n, b"turn; stop\n"),
    ];
    let output = [
        each(n, b"actor @\n"),
        once(b"queued\nturn 0; from 0 7; waits"),
        other(n, b"; queued"),
        once(b"; again\n"),
        other(n, b"turn @; from 0 @; stopped\n"),
        once(b"turn 0; from 0 0; stopped\n"),
    ];
    assert!(&rt;
        matches!(
            is_answered(&rt, rt.alloc(), "actors 1000 1000", &input, &output),
            Some(true)
        )
    );
}

// Many buckets and retries, each of which fails once, and a clock step to all their ticks.
#[test]
fn many_buckets_and_retries(rt: HostRuntime) {
    let n = 1000;
    let input = [
        each(n, b"bucket 2 10\nretry # # 2\nfail @\n"),
        once(b"clock 1000000000\n"),
    ];
    let output = [
        each(n, b"bucket @\nretry @\nagain #\n"),
        once(b"due"),
        each(n, b" @"),
        once(b"\n"),
    ];
    assert!(&rt;
        matches!(
            is_answered(&rt, rt.alloc(), "limiter 1000 1000", &input, &output),
            Some(true)
        )
    );
}

// Sessions, each after the others in one queue and closed in a tick of its own.
#[test]
fn many_sessions(rt: HostRuntime) {
    let n = 300;
    let input = [
        each(n, b"open #\nacquire @ 7\n"),
        once(b"owner 7\nclock 300000000\nowner 7\n"),
    ];
    let output = [
        once(b"session 0\nheld\n"),
        other(n, b"session @\nwaits\n"),
        once(b"owner 0\nclosed"),
        each(n, b" @"),
        once(b"\nfree\n"),
    ];
    assert!(&rt;
        matches!(
            is_answered(&rt, rt.alloc(), "sessions 300 300", &input, &output),
            Some(true)
        )
    );
}

// The longest turn of a script: 127 lines, each with three acts. The journal keeps it whole.
#[test]
fn the_longest_turn(rt: HostRuntime) {
    let n = 127;
    let input = [
        once(b"limits 1 0 1\ntask\n"),
        each(n, b"await-sleep 0\n"),
        once(b"done 5\n"),
    ];
    let output = [
        once(b"spawn -> task 0\nnow 0\nturn"),
        each(n, b"; sleep 0; poll @; drop-sleep @"),
        once(b"; ready 5 -> turn 0"),
        each(n, b"; sleep @; ready; dropped"),
        once(b"; done\ndrop-join 0 -> dropped 5\nmain 5\n"),
    ];
    assert!(&rt;
        matches!(
            is_answered(&rt, rt.alloc(), "run 0 9", &input, &output),
            Some(true)
        )
    );
}
