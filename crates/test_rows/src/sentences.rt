// Wrong lines and journals that are no run, and the sentence about each.
use crate::complaints::words_of;
use mono_model::Host;
use mono_script::{
    Ended, Instant, ListClock, NoSpawner, PlainSink, PlainSource, explained, failure_sentence,
    line_sentence,
};
use std::alloc::Global;
use std::process::Abort;

// Returns a clock that always reads its beginning.
fn still_clock<R: Abort>(rt: &R, alloc: Global) -> ListClock {
    let zero = Instant::from_nanos(0).expect(rt, "an instant");
    ListClock::new(vec![in alloc; zero].expect(rt, "memory"))
}

// Returns how the command with these words ends over the input. It has no clauses, so callers have none to carry.
fn end_of<R: Host + Abort + Send + 'static>(
    rt: &R,
    alloc: Global,
    words: &Vec<String>,
    input: &[u8],
) -> Option<Ended> {
    let clock = still_clock(rt, alloc);
    let mut source = PlainSource::new(Vec::from_slice(alloc, input).expect(rt, "memory"));
    let mut sink = PlainSink::new();
    let mut spawner = NoSpawner::new();
    explained(
        rt,
        alloc,
        words,
        &mut source,
        &mut sink,
        clock,
        &mut spawner,
    )
}

// Returns the sentence about the first bad line.
fn about_line(alloc: Global, command: &str, ended: &Ended) -> Option<String> {
    let line = ended.bad_line()?;
    let fault = ended.fault()?;
    line_sentence(alloc, command, line, &fault).ok()
}

// Returns the sentence about the first line of a journal that fails.
fn about_journal(alloc: Global, ended: &Ended) -> Option<String> {
    let failure = ended.failure(alloc).ok()??;
    failure_sentence(alloc, &failure).ok()
}

fn is_said(said: Option<String>, sentence: &[u8]) -> bool {
    match said {
        Some(said) => said.as_bytes() == sentence,
        None => false,
    }
}

// Returns whether this sentence is printed about the input of a command with these words.
fn says<R: Host + Abort + Send + 'static>(
    rt: &R,
    alloc: Global,
    words: &str,
    input: &[u8],
    sentence: &[u8],
) -> bool {
    let command = words.split(' ').next().unwrap_or("");
    match end_of(rt, alloc, &words_of(alloc, words), input) {
        Some(ended) => is_said(about_line(alloc, command, &ended), sentence),
        None => false,
    }
}

// Returns the same of a journal.
fn fails<R: Host + Abort + Send + 'static>(
    rt: &R,
    alloc: Global,
    words: &str,
    journal: &[u8],
    sentence: &[u8],
) -> bool {
    match end_of(rt, alloc, &words_of(alloc, words), journal) {
        Some(ended) => is_said(about_journal(alloc, &ended), sentence),
        None => false,
    }
}

const REPLAY: &str = "replay attached 16 16 16";

const CHECK: &str = "check attached 16 16 16";

const RUN: &str = "run 0 100";

const SESSIONS: &str = "sessions 4 4";

const LIMITER: &str = "limiter 4 4";

const ACTORS: &str = "actors 4 4";

// The words of a command, an input, and the sentence about its first bad line.
const CASES: [(&str, &[u8], &[u8]); 81] = [
    (REPLAY, b"spawn\nspawn", b"line 2: no line feed at the end"),
    (
        REPLAY,
        b"spawn\r\n",
        b"line 1: a carriage return before the line feed",
    ),
    (REPLAY, b"spwan\n", b"line 1: unknown word \"spwan\""),
    (
        REPLAY,
        b"spawn\n\nspawn\n",
        b"line 2: the line begins with no word",
    ),
    (REPLAY, b"wake0\n", b"line 1: unknown word \"wake0\""),
    (
        REPLAY,
        b"\x1b[31mred\n",
        b"line 1: unknown word \"\\x1b[31mred\"",
    ),
    (
        REPLAY,
        b"\xff\xfe\n",
        b"line 1: unknown word \"\\xff\\xfe\"",
    ),
    (
        REPLAY,
        b"aaaaaaaaaabbbbbbbbbbccccccccccddddddddddeeeeeeeeee\n",
        b"line 1: unknown word \"aaaaaaaaaabbbbbbbbbbccccccccccdddddddddd...\"",
    ),
    (
        REPLAY,
        b"wake 00\n",
        b"line 1: \"00\" is no plain decimal number; expected: wake TASK",
    ),
    (
        REPLAY,
        b"wake -1\n",
        b"line 1: \"-1\" is no plain decimal number; expected: wake TASK",
    ),
    (
        REPLAY,
        b"sleep 1.5\n",
        b"line 1: \"1.5\" is no plain decimal number; expected: sleep NANOS",
    ),
    (
        REPLAY,
        b"clock 5ms\n",
        b"line 1: \"5ms\" is no plain decimal number; expected: clock NANOS",
    ),
    (
        REPLAY,
        b"reset 0 x\n",
        b"line 1: \"x\" is no plain decimal number; expected: reset SLEEP NANOS",
    ),
    (
        REPLAY,
        b"wake +1\n",
        b"line 1: \"+1\" is no plain decimal number; expected: wake TASK",
    ),
    (
        REPLAY,
        b"wake 18446744073709551616\n",
        b"line 1: \"18446744073709551616\" is above 18446744073709551615; expected: wake TASK",
    ),
    (
        REPLAY,
        b"sleep 340282366920938463463374607431768211456\n",
        b"line 1: \"340282366920938463463374607431768211456\" is above 340282366920938463463374607431768211455; expected: sleep NANOS",
    ),
    (
        REPLAY,
        b"wake\n",
        b"line 1: a word is missing; expected: wake TASK",
    ),
    (
        REPLAY,
        b"wake 1 2\n",
        b"line 1: \"2\" is a word too many; expected: wake TASK",
    ),
    (
        REPLAY,
        b"wake 1 \n",
        b"line 1: a blank too many after \"1\"",
    ),
    (
        REPLAY,
        b" wake 1\n",
        b"line 1: a blank before the first word",
    ),
    (
        REPLAY,
        b"turn;  wake 1; pending\n",
        b"line 1: a blank too many after \"turn;\"",
    ),
    (
        REPLAY,
        b"wake 1;\n",
        b"line 1: a semicolon after \"1\", which only a turn has",
    ),
    (
        REPLAY,
        b"spawn 0\n",
        b"line 1: \"0\" is a word too many; expected: spawn",
    ),
    (
        REPLAY,
        b"poll 0\n",
        b"line 1: \"poll\" belongs in a turn; expected: turn; STEP; pending, or turn; STEP; ready OUTPUT, with any number of steps",
    ),
    (
        REPLAY,
        b"spawn ->task 0\n",
        b"line 1: \" -> \" and a report stand in a journal alone, which check reads",
    ),
    (
        REPLAY,
        b"turn; wake 0\n",
        b"line 1: the turn has no end: pending or ready OUTPUT is missing",
    ),
    (
        REPLAY,
        b"turn; wake 0; \n",
        b"line 1: no word behind \"; \"",
    ),
    (
        REPLAY,
        b"turn; pending; wake 0\n",
        b"line 1: \"wake\" follows the turn's end, which is pending or ready OUTPUT",
    ),
    (
        REPLAY,
        b"turn; pending;\n",
        b"line 1: a semicolon after the turn's end",
    ),
    (
        REPLAY,
        b"job-end 0 done\n",
        b"line 1: \"done\" is neither ran nor canceled; expected: job-end JOB ran, or job-end JOB canceled",
    ),
    (
        REPLAY,
        b"turn;sleep 5; pending\n",
        b"line 1: no \"; \" before \"sleep\"; expected: turn; STEP; pending, or turn; STEP; ready OUTPUT, with any number of steps",
    ),
    (
        REPLAY,
        b"turn;pending\n",
        b"line 1: no \"; \" before \"pending\"; expected: turn; STEP; pending, or turn; STEP; ready OUTPUT, with any number of steps",
    ),
    (
        REPLAY,
        b"turn; wake; pending\n",
        b"line 1: a word is missing; expected: wake TASK",
    ),
    (
        REPLAY,
        b"turn; wake 0 0; pending\n",
        b"line 1: \"0\" is a word too many; expected: wake TASK",
    ),
    (
        REPLAY,
        b"wake \"1\\\"\n",
        b"line 1: \"\\\"1\\\\\\\"\" is no plain decimal number; expected: wake TASK",
    ),
    (
        REPLAY,
        b"turn\n",
        b"line 1: the turn has no end: pending or ready OUTPUT is missing",
    ),
    (
        REPLAY,
        b"spawn\nturn; slep 5; pending\n",
        b"line 2: unknown word \"slep\" behind \"; \"",
    ),
    (
        REPLAY,
        b"turn; clock 5; pending\n",
        b"line 1: \"clock\" does not belong in a turn; expected: clock NANOS",
    ),
    (
        REPLAY,
        b"turn; sleep 5ms; pending\n",
        b"line 1: \"5ms\" is no plain decimal number; expected: sleep NANOS",
    ),
    (
        REPLAY,
        b"turn; poll 0x1; pending\n",
        b"line 1: \"0x1\" is no plain decimal number; expected: poll SLEEP",
    ),
    (
        REPLAY,
        b"spawn -> task 0\n",
        b"line 1: \" -> \" and a report stand in a journal alone, which check reads",
    ),
    (
        CHECK,
        b"spawn\n",
        b"line 1: an event without \" -> \" and its report",
    ),
    (
        CHECK,
        b"spawn -> task 0\nturn; pending\n",
        b"line 2: an event without \" -> \" and its report",
    ),
    (
        CHECK,
        b"spawn -> tusk 0\n",
        b"line 1: unknown word \"tusk\" behind \" -> \"",
    ),
    (CHECK, b"spawn ->\n", b"line 1: no report behind \" -> \""),
    (
        CHECK,
        b"spawn ->task 1\n",
        b"line 1: a blank is missing at \"->\" in \"->task\"",
    ),
    (
        CHECK,
        b"spawn-> task 1\n",
        b"line 1: a blank is missing at \"->\" in \"spawn->\"",
    ),
    (
        CHECK,
        b"spawn -> task x\n",
        b"line 1: the report is not in the form of its first word; expected: task TASK",
    ),
    (
        CHECK,
        b"now 340282366920938463463374607431768211456\n",
        b"line 1: \"340282366920938463463374607431768211456\" is above 340282366920938463463374607431768211455; expected: now NANOS",
    ),
    (
        CHECK,
        b"now 5 -> task 0\n",
        b"line 1: \"now\" takes no report; expected: now NANOS",
    ),
    (
        CHECK,
        b"turn; sleep; pending -> turn 0; sleep 0; idle\n",
        b"line 1: a word is missing; expected: sleep NANOS",
    ),
    (
        CHECK,
        b"now 1s\n",
        b"line 1: \"1s\" is no plain decimal number; expected: now NANOS",
    ),
    (CHECK, b"task 0\n", b"line 1: unknown word \"task\""),
    (
        RUN,
        b"",
        b"the script is empty: limits TASKS JOBS SLEEPS is missing",
    ),
    (
        RUN,
        b"limits 1 1 1\n",
        b"the script ends too early: task is missing",
    ),
    (
        RUN,
        b"limits 1 1 1\ntask\nyield\n",
        b"the script ends too early: done OUTPUT is missing",
    ),
    (
        RUN,
        b"task\ndone 0\n",
        b"line 1: the first line of a script is limits TASKS JOBS SLEEPS",
    ),
    (
        RUN,
        b"# a script\nlimits 1 1 1\n",
        b"line 1: the first line of a script is limits TASKS JOBS SLEEPS",
    ),
    (
        RUN,
        b"limits 1 1 1\nyield\ndone 0\n",
        b"line 2: a kind begins with task",
    ),
    (
        RUN,
        b"limits 1 1 1\ntask\nyield\ntask\ndone 0\n",
        b"line 4: the kind before has no done OUTPUT",
    ),
    (
        RUN,
        b"limits 4 1 1\ntask\nspawn 3\ndone 0\n",
        b"line 3: there is no kind 3: the first `task` line is kind 0",
    ),
    (
        RUN,
        b"limits 4 1 1\ntask\njoin 0\ndone 0\n",
        b"line 3: no own task 0 was made before: the first `spawn` of a kind makes task 0",
    ),
    (
        RUN,
        b"limits 4 1 1\ntask\nspawn 0\njoin 0\ndetach 0\ndone 0\n",
        b"line 5: the handle 0 was used by an earlier line",
    ),
    (
        RUN,
        b"limits 4 1 1\ntask\nspawn 1\ndone 0\ntask\njoin 0\ndone 0\n",
        b"line 6: no own task 0 was made before: the first `spawn` of a kind makes task 0",
    ),
    (
        RUN,
        b"limits 1 1 1\ntask\nawait-job 1\ndone 0\n",
        b"line 3: no own job 1 was made before: the first `block` of a kind makes job 0",
    ),
    (
        RUN,
        b"limits 1 1 1\ntask\nawait-sleep 1e9\ndone 0\n",
        b"line 3: \"1e9\" is no plain decimal number; expected: await-sleep NANOS",
    ),
    (
        RUN,
        b"limits 1 1\ntask\ndone 0\n",
        b"line 1: a word is missing; expected: limits TASKS JOBS SLEEPS",
    ),
    (
        RUN,
        b"limits 1 1 1\nlimits 1 1 1\n",
        b"line 2: limits belongs in the first line alone",
    ),
    (
        RUN,
        b"limits 1 1 1\ntask\nyield 5\ndone 0\n",
        b"line 3: \"5\" is a word too many; expected: yield",
    ),
    (
        RUN,
        b"limits 1 1 1\ntask\nyield \ndone 0\n",
        b"line 3: a blank too many after \"yield\"",
    ),
    (
        RUN,
        b"limits 1 1 1\ntask\nyield; yield\ndone 0\n",
        b"line 3: a semicolon after \"yield\", which no line has",
    ),
    (
        RUN,
        b"limits 1 1 1\ntask\nyield -> yes\ndone 0\n",
        b"line 3: \" -> \" and a report stand in a journal alone, which check reads",
    ),
    (
        RUN,
        b"limits 1 1 1\ntask\nsleep 5\ndone 0\n",
        b"line 3: unknown word \"sleep\"; expected: limits, task, spawn, join, detach, await-sleep, block, await-job, drop-job, yield or done",
    ),
    (
        SESSIONS,
        b"open 5s\n",
        b"line 1: \"5s\" is no plain decimal number; expected: open MILLIS",
    ),
    (
        SESSIONS,
        b"open 5\nacquire 0\n",
        b"line 2: a word is missing; expected: acquire SESSION KEY",
    ),
    (
        LIMITER,
        b"bucket 1 01\n",
        b"line 1: \"01\" is no plain decimal number; expected: bucket TOKENS TICKS",
    ),
    (
        LIMITER,
        b"take\t0 1\n",
        b"line 1: unknown word \"take\\x090\"",
    ),
    (
        ACTORS,
        b"actor\nturn; sent 0 1; stay\n",
        b"line 2: unknown word \"sent\" behind \"; \"",
    ),
    (
        ACTORS,
        b"actor\nturn; send 0; stay\n",
        b"line 2: a word is missing; expected: send FROM TO MESSAGE, or in a turn send TO MESSAGE",
    ),
    (
        ACTORS,
        b"actor\nturn; send 0 1\n",
        b"line 2: the turn has no end: stay or stop is missing",
    ),
    (
        ACTORS,
        b"send 0 1\n",
        b"line 1: a word is missing; expected: send FROM TO MESSAGE, or in a turn send TO MESSAGE",
    ),
];

#[test]
fn each_wrong_line_has_its_sentence(rt: HostRuntime) {
    for (words, input, sentence) in CASES {
        assert!(&rt; says(&rt, rt.alloc(), words, input, sentence));
    }
}

const WHOLE: &str = "check --whole attached 16 16 16";

// A journal, and what is said of its first line that fails.
const NO_RUN: [(&[u8], &[u8]); 7] = [
    (b"spawn -> task 1\n", b"line 1: the machine answers: task 0"),
    (
        b"spawn -> task 0\nturn; sleep 5; poll 0; pending -> turn 0; sleep 0; ready; idle\n",
        b"line 2: the machine answers: turn 0; sleep 0; pending; idle",
    ),
    (
        b"spawn -> task 0\nturn; sleep 5000000; sleep 2000000; poll 0; poll 1; pending -> turn 0; sleep 0; sleep 1; pending; pending; idle\nclock 9000000 -> fired 0 1\n",
        b"line 3: the machine answers: fired 1 0",
    ),
    (
        b"clock 9223372036854775807000001 -> fired\n",
        b"line 1: the machine answers: refused invalid",
    ),
    (
        b"spawn -> task 0\nremote 0 -> unlisted\n",
        b"line 2: the machine answers: listed",
    ),
    (
        b"spawn -> task 0\nremote 0 -> listed\nremote 0 -> unlisted\nremote 1 -> refused no-task\ndrain -> drained\n",
        b"line 5: the machine answers: drained 0",
    ),
    (
        b"turn; pending -> turn 0; idle\n",
        b"line 1: the machine answers: refused idle",
    ),
];

// A journal that is not whole, and what is said of its first line that fails.
const NOT_WHOLE: [(&[u8], &[u8]); 13] = [
    (b"spawn -> task 1\n", b"line 1: the machine answers: task 0"),
    (
        b"main 3\n",
        b"line 1: expected: spawn and its report, which begins a call",
    ),
    (
        b"spawn -> task 0\nnow 5\nnow 4\n",
        b"line 3: expected: a turn, or a park without a limit or to a tick above 0, behind the line now",
    ),
    (
        b"spawn -> task 0\nnow 5\nturn; pending -> turn 0; idle\nnow 9223372036854775807000001\n",
        b"line 4: expected: now NANOS, remote TASK, drain or drop-join 0",
    ),
    (
        b"spawn -> task 0\nnow 5\nturn; pending -> turn 0; idle\n",
        b"line 4: expected: now NANOS, remote TASK, drain or drop-join 0",
    ),
    (
        b"spawn -> task 0\nnow 5\npark\n",
        b"line 4: expected: remote TASK, drain or drop-join 0 behind the park",
    ),
    (
        b"spawn -> task 0\nnow 5\npark\nremote 0 -> listed\n",
        b"line 5: expected: remote TASK or drain behind the line remote",
    ),
    (
        b"spawn -> task 0\nnow 5\npark 3\ndrain -> drained\nnow 4\n",
        b"line 5: expected: clock NANOS or drop-join 0 behind the drain that follows a park",
    ),
    (
        b"spawn -> task 0\nremote 0 -> listed\nnow 5\n",
        b"line 3: expected: remote TASK or drain behind the line remote",
    ),
    (
        b"spawn -> task 0\nspawn -> task 1\n",
        b"line 2: expected: now NANOS, remote TASK, drain or drop-join 0",
    ),
    (
        b"spawn -> task 0\nnow 5\nturn; ready 7 -> turn 0; done\ndrop-join 0 -> dropped 7\nmain 6\n",
        b"line 5: expected: main 7, the output that the drop gave, or the next call",
    ),
    (
        b"spawn -> task 0\nnow 5\nturn; pending -> turn 0; idle\ndrop-join 0 -> dropped\nmain 7\n",
        b"line 5: expected: the next call or the end: the drop gave no output",
    ),
    (
        b"spawn -> task 0\ndrop-join 0 -> dropped\nnow 5\n",
        b"line 3: expected: the next call or the end: the drop gave no output",
    ),
];

#[test]
fn failures_are_explained(rt: HostRuntime) {
    for (journal, sentence) in NO_RUN {
        assert!(&rt; fails(&rt, rt.alloc(), CHECK, journal, sentence));
    }
    for (journal, sentence) in NOT_WHOLE {
        assert!(&rt; fails(&rt, rt.alloc(), WHOLE, journal, sentence));
    }
}
