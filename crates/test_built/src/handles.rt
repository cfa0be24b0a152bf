// Forms over the handles of two tasks, which end after 3 ms and after 6 ms. A handle that is given up is one for which no
// main task parks.
ghost use Rattle.test_built.specs.Predicates.{MayTest};

use crate::runs::{Ended, millis, poll_form, run_beside};
use mono_combine::{Join2, Select2, Start, TryJoin2};
use mono_forms::{Race, race};
use mono_rt::{Host, JoinContext, JoinHandle, Poll, SleepFor, TaskError, TaskFuture, TimeContext};
use std::alloc::Global;

/// The answer of a handle.
type Joined = Result<u64, TaskError>;

/// A form over two handles, or a task that it awaits.
#[derive(Drop)]
enum Handles<F> {
    Nap(SleepFor),
    Join(Join2<JoinHandle<u64>, JoinHandle<u64>, Joined, Joined>),
    Try(TryJoin2<JoinHandle<u64>, JoinHandle<u64>, u64, u64, TaskError>),
    Select(Select2<JoinHandle<u64>, JoinHandle<u64>, F, F>),
    Race(Race<JoinHandle<u64>, JoinHandle<u64>>),
}

impl<C, F> TaskFuture<C> for Handles<F>
where
    C: TimeContext + JoinContext<u64>,
    F: Fn(&Joined) -> bool + Drop,
{
    type Output = u64;

    ghost can_poll = { λ _. MayTest F.Fn };

    fn spent(&self) -> bool {
        false
    }

    fn poll<R: Host>(&mut self, rt: &R, alloc: Global, cx: &mut C) -> Poll<u64> {
        match self {
            Handles::Nap(nap) => poll_form(rt, alloc, cx, nap),
            Handles::Join(form) => poll_form(rt, alloc, cx, form),
            Handles::Try(form) => poll_form(rt, alloc, cx, form),
            Handles::Select(form) => poll_form(rt, alloc, cx, form),
            Handles::Race(form) => poll_form(rt, alloc, cx, form),
        }
    }

    // A form that has answered has given its parts up.
    fn cancel(self, _cx: &mut C) {}
}

fn handle(task: u64) -> JoinHandle<u64> {
    JoinHandle::of_task(task)
}

fn join<F>() -> Handles<F> {
    Handles::Join(Join2::new(handle(0), handle(1)))
}

// No task has the number 9.
fn try_join<F>() -> Handles<F> {
    Handles::Try(TryJoin2::new(handle(0), handle(9)))
}

fn select<F: Copy>(test: F) -> Handles<F> {
    Handles::Select(Select2::new(handle(1), handle(0), test, test, 0, Start::Biased))
}

fn first<F>() -> Handles<F> {
    Handles::Race(race(handle(1), handle(0)))
}

// Runs a form beside the two tasks.
fn run_form<F, R>(rt: &R, alloc: Global, form: Handles<F>) -> Ended
where
    F: Fn(&Joined) -> bool + Drop,
    R: Host,
    requires { MayTest F.Fn }
{
    let naps = (Handles::Nap(millis(3)), Handles::Nap(millis(6)));
    run_beside(rt, alloc, Some(naps), form)
}

// Returns the run of each form, with this predicate of a select.
fn all_with<F, R>(rt: &R, alloc: Global, test: F) -> [(&'static str, Ended); 4]
where
    F: Fn(&Joined) -> bool + Copy + Drop,
    R: Host,
    requires { MayTest F.Fn }
{
    [
        ("join of handles", run_form::<F, R>(rt, alloc, join())),
        ("try of handles", run_form::<F, R>(rt, alloc, try_join())),
        ("select of handles", run_form(rt, alloc, select(test))),
        ("race of handles", run_form::<F, R>(rt, alloc, first())),
    ]
}

fn any_output(_: &Joined) -> bool {
    true
}

/// Returns the run of each form over handles.
pub(crate) fn all<R: Host>(rt: &R, alloc: Global) -> [(&'static str, Ended); 4] {
    all_with(rt, alloc, any_output)
}
