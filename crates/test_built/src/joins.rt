// Joins over sleeps. A join parks until its longest sleep has ended.
use crate::runs::{Ended, millis, poll_form, run};
use mono_combine::{
    Join2, Join3, Join4, Join5, JoinList, MaybeDone, join3, join4, join5, maybe_done,
};
use mono_rt::{Host, Poll, SleepError, SleepFor, TaskFuture, TimeContext};
use std::alloc::Global;

/// The answer of a sleep.
type Slept = Result<(), SleepError>;

/// A join over sleeps.
#[derive(Drop)]
enum Joins {
    Two(Join2<SleepFor, SleepFor, Slept, Slept>),
    Three(Join3<SleepFor, SleepFor, SleepFor, Slept, Slept, Slept>),
    Four(Join4<SleepFor, SleepFor, SleepFor, SleepFor, Slept, Slept, Slept, Slept>),
    Five(
        Join5<SleepFor, SleepFor, SleepFor, SleepFor, SleepFor, Slept, Slept, Slept, Slept, Slept>,
    ),
    List(JoinList<SleepFor, Slept>),
    Kept(MaybeDone<SleepFor, Slept>),
}

impl<C: TimeContext> TaskFuture<C> for Joins {
    type Output = u64;

    fn spent(&self) -> bool {
        false
    }

    fn poll<R: Host>(&mut self, rt: &R, alloc: Global, cx: &mut C) -> Poll<u64> {
        match self {
            Joins::Two(join) => poll_form(rt, alloc, cx, join),
            Joins::Three(join) => poll_form(rt, alloc, cx, join),
            Joins::Four(join) => poll_form(rt, alloc, cx, join),
            Joins::Five(join) => poll_form(rt, alloc, cx, join),
            Joins::List(join) => poll_form(rt, alloc, cx, join),
            Joins::Kept(part) => poll_form(rt, alloc, cx, part),
        }
    }

    // A form that has answered has given its parts up.
    fn cancel(self, _cx: &mut C) {}
}

fn two() -> Joins {
    Joins::Two(Join2::new(millis(5), millis(7)))
}

fn three() -> Joins {
    Joins::Three(join3(millis(5), millis(7), millis(6)))
}

fn four() -> Joins {
    Joins::Four(join4(millis(5), millis(7), millis(6), millis(2)))
}

fn five() -> Joins {
    Joins::Five(join5(millis(5), millis(7), millis(6), millis(2), millis(3)))
}

// Returns none if out of memory.
fn list(alloc: Global) -> Option<Joins> {
    let parts = Vec::from_array(alloc, [millis(3), millis(5), millis(4)]).ok()?;
    JoinList::new(alloc, parts).ok().map(Joins::List)
}

// Its output stays in the part.
fn kept() -> Joins {
    Joins::Kept(maybe_done(millis(3)))
}

/// Returns the run of each join.
pub(crate) fn all<R: Host>(rt: &R, alloc: Global) -> [(&'static str, Ended); 6] {
    [
        ("join2", run(rt, alloc, Some(two()))),
        ("join3", run(rt, alloc, Some(three()))),
        ("join4", run(rt, alloc, Some(four()))),
        ("join5", run(rt, alloc, Some(five()))),
        ("join_list", run(rt, alloc, list(alloc))),
        ("maybe_done", run(rt, alloc, Some(kept()))),
    ]
}
