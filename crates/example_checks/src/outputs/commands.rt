// One command of each kind, with its words, its input and its output.
ghost use Rattle.std.specs.Prelude.{◌≡◌, ◌<◌, ◌^◌, ◌-◌, ◌++◌, [], codes, IfOk};
ghost use Rattle.example_checks.specs.Outputs.{Gives, line};

use crate::outputs::calls::status_of;
use crate::outputs::word_lists::{limit_words, one_word, three_words};
use mono_model::Host;
use mono_script::Sink;
use std::alloc::{AllocError, Global};

/// Replays a spawn, and a turn of the task that was made.
pub fn replay<K: Sink, R: Host + Send + 'static>(
    rt: &R,
    alloc: Global,
    sink: &mut K,
) -> Result<u8, AllocError>
    ensures { K.faults sink.old < 2 ^ 64 - 1 → IfOk result (Gives 0 (line (codes "task 0") ++ line (codes "turn 0; sleep 0; ready; done")) (K.written sink.old) (K.written sink.new)) }
{
    let words = limit_words(alloc, "replay", "attached", "16")?;
    let input = b"spawn\nturn; sleep 0; poll 0; ready 7\n";
    status_of(rt, alloc, &words, input, sink)
}

/// Replays a line that is no event, which is named.
pub fn bad_line<K: Sink, R: Host + Send + 'static>(
    rt: &R,
    alloc: Global,
    sink: &mut K,
) -> Result<u8, AllocError>
    ensures { K.faults sink.old < 2 ^ 64 - 1 → IfOk result (Gives 3 (line (codes "bad line 1")) (K.written sink.old) (K.written sink.new)) }
{
    let words = limit_words(alloc, "replay", "attached", "16")?;
    status_of(rt, alloc, &words, b"x\n", sink)
}

/// Checks a journal whose one report is right.
pub fn check<K: Sink, R: Host + Send + 'static>(
    rt: &R,
    alloc: Global,
    sink: &mut K,
) -> Result<u8, AllocError>
    ensures { K.faults sink.old < 2 ^ 64 - 1 → IfOk result (Gives 0 (line (codes "yes")) (K.written sink.old) (K.written sink.new)) }
{
    let words = limit_words(alloc, "check", "attached", "16")?;
    status_of(rt, alloc, &words, b"spawn -> task 0\n", sink)
}

/// Checks a journal whose one report is wrong: the first task has number 0.
pub fn wrong_check<K: Sink, R: Host + Send + 'static>(
    rt: &R,
    alloc: Global,
    sink: &mut K,
) -> Result<u8, AllocError>
    ensures { K.faults sink.old < 2 ^ 64 - 1 → IfOk result (Gives 11 (line (codes "no 1")) (K.written sink.old) (K.written sink.new)) }
{
    let words = limit_words(alloc, "check", "attached", "16")?;
    status_of(rt, alloc, &words, b"spawn -> task 1\n", sink)
}

/// Runs a script whose limits have no place for its main task.
pub fn run<K: Sink, R: Host + Send + 'static>(
    rt: &R,
    alloc: Global,
    sink: &mut K,
) -> Result<u8, AllocError>
    ensures { K.faults sink.old < 2 ^ 64 - 1 → IfOk result (Gives 10 (line (codes "spawn -> refused at-capacity")) (K.written sink.old) (K.written sink.new)) }
{
    let words = three_words(alloc, "run", "0", "1")?;
    status_of(rt, alloc, &words, b"limits 0 1 1\ntask\ndone 1\n", sink)
}

/// Runs a script with no budget: the main task is made and has no turn.
pub fn spent_run<K: Sink, R: Host + Send + 'static>(
    rt: &R,
    alloc: Global,
    sink: &mut K,
) -> Result<u8, AllocError>
    ensures { K.faults sink.old < 2 ^ 64 - 1 → IfOk result (Gives 8 (line (codes "spawn -> task 0") ++ line (codes "drop-join 0 -> dropped")) (K.written sink.old) (K.written sink.new)) }
{
    let words = three_words(alloc, "run", "0", "0")?;
    status_of(rt, alloc, &words, b"limits 1 1 1\ntask\ndone 5\n", sink)
}

/// Runs a script whose main task has an output in its first turn.
pub fn finished_run<K: Sink, R: Host + Send + 'static>(
    rt: &R,
    alloc: Global,
    sink: &mut K,
) -> Result<u8, AllocError>
    ensures { K.faults sink.old < 2 ^ 64 - 1 → IfOk result
        (Gives 0 (line (codes "spawn -> task 0") ++ line (codes "now 0") ++ line (codes "turn; ready 5 -> turn 0; done")
        ++ line (codes "drop-join 0 -> dropped 5") ++ line (codes "main 5")) (K.written sink.old) (K.written sink.new)) }
{
    let words = three_words(alloc, "run", "0", "1")?;
    status_of(rt, alloc, &words, b"limits 1 1 1\ntask\ndone 5\n", sink)
}

/// Sums up a load without sleeps, whose events are 16 clock steps.
pub fn load<K: Sink, R: Host + Send + 'static>(
    rt: &R,
    alloc: Global,
    sink: &mut K,
) -> Result<u8, AllocError>
    ensures { K.faults sink.old < 2 ^ 64 - 1 → IfOk result (Gives 0 (line (codes "events 16 fired 0 refused 0 order 0")) (K.written sink.old) (K.written sink.new)) }
{
    let words = three_words(alloc, "load", "1", "0")?;
    status_of(rt, alloc, &words, b"", sink)
}

/// Sums up a load with one sleep, of two milliseconds, which fires at the first clock step.
pub fn sleeping_load<K: Sink, R: Host + Send + 'static>(
    rt: &R,
    alloc: Global,
    sink: &mut K,
) -> Result<u8, AllocError>
    ensures { K.faults sink.old < 2 ^ 64 - 1 → IfOk result (Gives 0 (line (codes "events 19 fired 1 refused 0 order 1")) (K.written sink.old) (K.written sink.new)) }
{
    let words = three_words(alloc, "load", "1", "1")?;
    status_of(rt, alloc, &words, b"", sink)
}

/// Opens a session.
pub fn sessions<K: Sink, R: Host + Send + 'static>(
    rt: &R,
    alloc: Global,
    sink: &mut K,
) -> Result<u8, AllocError>
    ensures { K.faults sink.old < 2 ^ 64 - 1 → IfOk result (Gives 0 (line (codes "session 0")) (K.written sink.old) (K.written sink.new)) }
{
    let words = three_words(alloc, "sessions", "1", "1")?;
    status_of(rt, alloc, &words, b"open 5\n", sink)
}

/// Makes a bucket.
pub fn limiter<K: Sink, R: Host + Send + 'static>(
    rt: &R,
    alloc: Global,
    sink: &mut K,
) -> Result<u8, AllocError>
    ensures { K.faults sink.old < 2 ^ 64 - 1 → IfOk result (Gives 0 (line (codes "bucket 0")) (K.written sink.old) (K.written sink.new)) }
{
    let words = three_words(alloc, "limiter", "1", "1")?;
    status_of(rt, alloc, &words, b"bucket 1 1\n", sink)
}

/// Makes an actor.
pub fn actors<K: Sink, R: Host + Send + 'static>(
    rt: &R,
    alloc: Global,
    sink: &mut K,
) -> Result<u8, AllocError>
    ensures { K.faults sink.old < 2 ^ 64 - 1 → IfOk result (Gives 0 (line (codes "actor 0")) (K.written sink.old) (K.written sink.new)) }
{
    let words = three_words(alloc, "actors", "1", "1")?;
    status_of(rt, alloc, &words, b"actor\n", sink)
}

/// Asks for the version, which is no command of the top call: `monoio` answers it before the call.
pub fn no_command<K: Sink, R: Host + Send + 'static>(
    rt: &R,
    alloc: Global,
    sink: &mut K,
) -> Result<u8, AllocError>
    ensures { IfOk result (λ status. (status ≡ 2) × (K.written sink.new ≡ K.written sink.old)) }
{
    let words = one_word(alloc, "--version")?;
    status_of(rt, alloc, &words, b"", sink)
}
