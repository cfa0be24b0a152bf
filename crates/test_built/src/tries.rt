// Tries over sleeps. A try ends with its first error, and leaves no sleep behind for which a task parks.
ghost use Rattle.mono_time.specs.Naps.{nap_spent};

use crate::runs::{Ended, millis, poll_form, run};
use mono_combine::{
    TryJoin2, TryJoin3, TryJoin4, TryJoin5, TryJoinList, try_join3, try_join4, try_join5,
};
use mono_rt::{Host, Poll, SleepFor, TaskFuture, TimeContext};
use std::alloc::Global;

/// A sleep with an answer of its own.
#[derive(Drop)]
struct Part {
    nap: SleepFor,
    answer: Result<u64, u64>,
}

impl<C: TimeContext> TaskFuture<C> for Part {
    type Output = Result<u64, u64>;

    ghost is_spent = { λ f. nap_spent f.nap };

    fn spent(&self) -> bool {
        TaskFuture::<C>::spent(&self.nap)
    }

    fn poll<R: Host>(&mut self, rt: &R, alloc: Global, cx: &mut C) -> Poll<Result<u64, u64>> {
        match self.nap.poll(rt, alloc, cx) {
            Poll::Ready(_) => Poll::Ready(self.answer),
            Poll::Pending => Poll::Pending,
        }
    }

    fn cancel(self, cx: &mut C) {
        self.nap.cancel(cx);
    }
}

/// A try over sleeps.
#[derive(Drop)]
enum Tries {
    Two(TryJoin2<Part, Part, u64, u64, u64>),
    Three(TryJoin3<Part, Part, Part, u64, u64, u64, u64>),
    Four(TryJoin4<Part, Part, Part, Part, u64, u64, u64, u64, u64>),
    Five(TryJoin5<Part, Part, Part, Part, Part, u64, u64, u64, u64, u64, u64>),
    List(TryJoinList<Part, u64, u64>),
}

impl<C: TimeContext> TaskFuture<C> for Tries {
    type Output = u64;

    fn spent(&self) -> bool {
        false
    }

    fn poll<R: Host>(&mut self, rt: &R, alloc: Global, cx: &mut C) -> Poll<u64> {
        match self {
            Tries::Two(join) => poll_form(rt, alloc, cx, join),
            Tries::Three(join) => poll_form(rt, alloc, cx, join),
            Tries::Four(join) => poll_form(rt, alloc, cx, join),
            Tries::Five(join) => poll_form(rt, alloc, cx, join),
            Tries::List(join) => poll_form(rt, alloc, cx, join),
        }
    }

    // A form that has answered has given its parts up.
    fn cancel(self, _cx: &mut C) {}
}

// Returns a part that answers a value after so many milliseconds.
fn good(count: u64, value: u64) -> Part {
    Part {
        nap: millis(count),
        answer: Ok(value),
    }
}

// Returns a part that fails after 2 ms.
fn bad() -> Part {
    Part {
        nap: millis(2),
        answer: Err(5),
    }
}

fn values() -> Tries {
    Tries::Two(TryJoin2::new(good(5, 1), good(7, 2)))
}

fn two() -> Tries {
    Tries::Two(TryJoin2::new(good(8, 1), bad()))
}

fn three() -> Tries {
    Tries::Three(try_join3(good(8, 1), bad(), good(1, 3)))
}

fn four() -> Tries {
    Tries::Four(try_join4(bad(), good(8, 2), good(1, 3), good(9, 4)))
}

fn five() -> Tries {
    Tries::Five(try_join5(good(8, 1), good(1, 2), good(3, 3), bad(), good(9, 5)))
}

// Returns none if out of memory.
fn list(alloc: Global) -> Option<Tries> {
    let parts = Vec::from_array(alloc, [good(8, 1), bad(), good(1, 3)]).ok()?;
    TryJoinList::new(alloc, parts).ok().map(Tries::List)
}

/// Returns the run of each try.
pub(crate) fn all<R: Host>(rt: &R, alloc: Global) -> [(&'static str, Ended); 6] {
    [
        ("try_join2 of values", run(rt, alloc, Some(values()))),
        ("try_join2", run(rt, alloc, Some(two()))),
        ("try_join3", run(rt, alloc, Some(three()))),
        ("try_join4", run(rt, alloc, Some(four()))),
        ("try_join5", run(rt, alloc, Some(five()))),
        ("try_join_list", run(rt, alloc, list(alloc))),
    ]
}
