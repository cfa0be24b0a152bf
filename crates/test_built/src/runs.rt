// Forms as main tasks of built runtimes, on a driver that never waits. The tasks of a runtime have one type: an enum with a
// variant for each form.
use crate::outputs::Digits;
use mono_rt::{
    Context, Cx, Entry, Event, Host, Journal, NoPool, NoUnpark, Poll, RunError, RuntimeBuilder,
    SleepFor, StepDriver, TaskFuture, TimeDriver, sleep_for,
};
use mono_sync::Only;
use mono_sync::mpsc::Channel;
use std::alloc::Global;
use std::time::Duration;

/// The digits of a main task's output, and the turns, the parks and the milliseconds of parks of its run.
#[derive(Clone, Copy, Drop)]
pub(crate) struct Ended {
    pub(crate) answer: u64,
    pub(crate) turns: u64,
    pub(crate) parks: u64,
    pub(crate) millis: u64,
}

// What is printed for a runtime that was not built.
const NOT_BUILT: Ended = Ended {
    answer: 9000,
    turns: 0,
    parks: 0,
    millis: 0,
};

/// What the tasks of a run share.
pub(crate) type Shared = Only<Channel<u64>>;

/// The context of a run.
pub(crate) type Here<M> = Cx<M, u64, NoPool, NoUnpark, Shared>;

/// Returns a sleep of so many milliseconds.
pub(crate) fn millis(count: u64) -> SleepFor {
    sleep_for(Duration::from_millis(count))
}

/// Polls a form, and answers the digits of its output.
pub(crate) fn poll_form<C, M, R>(rt: &R, alloc: Global, cx: &mut C, form: &mut M) -> Poll<u64>
where
    C: Context,
    M: TaskFuture<C, Output: Digits>,
    R: Host,
    requires { (m : M) → M.can_poll m }
    ensures { C.reaches cx.old cx.new }
{
    if form.spent() {
        return Poll::Pending;
    }
    match form.poll(rt, alloc, cx) {
        Poll::Ready(output) => Poll::Ready(output.digits()),
        Poll::Pending => Poll::Pending,
    }
}

// Returns 1 for an entry of a turn, and 0 for any other.
fn turns_of(entry: Option<&Entry>) -> u64 {
    match entry {
        Some(Entry::Ran(Event::Turn(_, _), _)) => 1,
        _ => 0,
    }
}

// Returns the milliseconds of an entry of a park.
fn park_of(entry: Option<&Entry>) -> Option<u64> {
    match entry {
        Some(Entry::Park(wait)) => Some(wait.unwrap_or(0)),
        _ => None,
    }
}

// Counts the turns and the parks of a journal.
fn told(answer: Result<u64, RunError>, journal: &Journal) -> Ended {
    let mut ended = Ended {
        answer: answer.unwrap_or(1000),
        ..NOT_BUILT
    };
    for place in 0..journal.len() {
        ended.turns = ended.turns.saturating_add(turns_of(journal.get(place)));
        if let Some(wait) = park_of(journal.get(place)) {
            ended.parks = ended.parks.saturating_add(1);
            ended.millis = ended.millis.saturating_add(wait);
        }
    }
    ended
}

/// Runs a main task on a built runtime, beside two others if there are any.
pub(crate) fn run_beside<M, R>(rt: &R, alloc: Global, beside: Option<(M, M)>, main: M) -> Ended
where
    M: TaskFuture<Here<M>, Output = u64> + Drop,
    R: Host,
    requires { (m : M) → M.can_poll m }
{
    let driver = TimeDriver::new(StepDriver::new(Vec::new(alloc)));
    let builder: RuntimeBuilder<_, NoPool> = RuntimeBuilder::new(driver);
    let shared = Only {
        part: Channel::new(alloc, 1),
    };
    let Ok(mut runtime) = builder.with_journal().build_sharing(alloc, shared) else {
        return NOT_BUILT;
    };
    if let Some((first, second)) = beside {
        let _ = runtime.spawn(alloc, first);
        let _ = runtime.spawn(alloc, second);
    }
    let answer = runtime.block_on(rt, alloc, main, 1000);
    told(answer, runtime.journal())
}

/// Runs a main task on a built runtime. There is none if its form was out of memory.
pub(crate) fn run<M, R: Host>(rt: &R, alloc: Global, main: Option<M>) -> Ended
where
    M: TaskFuture<Here<M>, Output = u64> + Drop,
    requires { (m : M) → M.can_poll m }
{
    match main {
        Some(main) => run_beside(rt, alloc, None, main),
        None => NOT_BUILT,
    }
}
