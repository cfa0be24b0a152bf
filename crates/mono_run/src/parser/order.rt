// Whether a body line may follow those before it.
ghost use Rattle.std.specs.Prelude.{◌≡◌, ◌<◌, false, IsTrue, if◌then◌else◌};
ghost use Rattle.mono_run.specs.Script.{MayStand, HasTask, HasJob, makes_task, makes_job, ends_task, ends_job};
ghost use Rattle.mono_run.specs.Parser.{Fits};

use crate::scripts::BodyLine;

fn is_spawn(line: BodyLine) -> bool
    ensures { makes_task line ≡ (if result then 1 else 0) }
{
    match line {
        BodyLine::Spawn(_) => true,
        _ => false,
    }
}

fn is_block(line: BodyLine) -> bool
    ensures { makes_job line ≡ (if result then 1 else 0) }
{
    match line {
        BodyLine::Block(_) => true,
        _ => false,
    }
}

// Returns whether the line gives the handle of own task i away.
fn gives_task(line: BodyLine, i: u64) -> bool
    ensures { ends_task i line ≡ (if result then 1 else 0) }
{
    match line {
        BodyLine::Join(j) | BodyLine::Detach(j) => i == j,
        _ => false,
    }
}

// Returns whether the line gives the handle of own job i away.
fn gives_job(line: BodyLine, i: u64) -> bool
    ensures { ends_job i line ≡ (if result then 1 else 0) }
{
    match line {
        BodyLine::AwaitJob(j) | BodyLine::DropJob(j) => i == j,
        _ => false,
    }
}

// Returns whether own task i was made by these lines, and not given away.
fn has_task(before: &[BodyLine], i: u64) -> bool
    ensures has { IsTrue result → HasTask before.now i }
    ensures not { result ≡ false → HasTask before.now i → ⊥ }
{
    let mut made = 0usize;
    'lines: for at in 0..before.len() {
        if gives_task(before[at], i) {
            return false;
        }
        if is_spawn(before[at]) {
            made += 1;
        }
    }
    i < made as u64
}

// Returns whether own job i was made by these lines, and not given away.
fn has_job(before: &[BodyLine], i: u64) -> bool
    ensures has { IsTrue result → HasJob before.now i }
    ensures not { result ≡ false → HasJob before.now i → ⊥ }
{
    let mut made = 0usize;
    'lines: for at in 0..before.len() {
        if gives_job(before[at], i) {
            return false;
        }
        if is_block(before[at]) {
            made += 1;
        }
    }
    i < made as u64
}

/// Returns whether the line may follow these lines of its kind, if a line may name the kinds below `kinds`.
pub(crate) fn may_stand(kinds: usize, before: &[BodyLine], line: BodyLine) -> bool
    requires { Fits line }
    ensures may { IsTrue result → MayStand kinds before.now line }
    ensures not { result ≡ false → MayStand kinds before.now line → ⊥ }
{
    match line {
        BodyLine::Spawn(kind) => kind < kinds as u64,
        BodyLine::Join(task) => has_task(before, task),
        BodyLine::Detach(task) => has_task(before, task),
        BodyLine::AwaitSleep(_) => true,
        BodyLine::Block(_) => true,
        BodyLine::AwaitJob(job) => has_job(before, job),
        BodyLine::DropJob(job) => has_job(before, job),
        BodyLine::Yield => true,
    }
}
