// A context that logs the calls of its futures, and futures that write to its log.
ghost use Rattle.std.specs.Prelude.{◌≡◌, ⊤, false};
ghost use Rattle.std.proofs.Common.{refl, ◌∙◌};
ghost use Rattle.mono_model.specs.Tasks.{no_tasks};

use mono_forms::FutureExt;
use mono_model::{Host, Poll};
use mono_task::{Context, TaskError, TaskFuture, Woke};
use std::alloc::Global;
use std::fmt::Debug;
use std::process::Abort;

/// A context whose log has a letter for each call of its futures. A small letter is a poll, and the same large means
/// that the future is given up. `!` is a wake, and `.` the end of a poll from outside.
#[derive(Drop)]
pub(crate) struct Log {
    pub(crate) me: u64,
    pub(crate) lines: String,
}

impl Log {
    pub(crate) fn write(&mut self, letter: char)
        ensures { self.new.me ≡ self.old.me }
    {
        let _ = self.lines.push(letter);
    }
}

impl Context for Log {
    ghost number = { λ c. c.me };

    ghost nanos = { λ c. 0 };

    ghost is_out_of_memory = { λ c. false };

    ghost work = { λ c. no_tasks 0 };

    ghost reaches = { λ c d. d.me ≡ c.me };

    ghost wakes = { λ c t r d. ⊤ };

    fn me(&self) -> u64 {
        self.me
    }

    fn now(&self) -> u128 {
        0
    }

    fn wake(&mut self, _task: u64) -> Result<Woke, TaskError> {
        self.write('!');
        Err(TaskError::NoTask)
    }

    ghost reaches_itself = { λ c. refl };

    ghost reaches_on = { λ a b c p q. q ∙ p };

    ghost same_number = { λ a b r. r };

    ghost same_nanos = { λ a b r. refl };

    ghost stays_out_of_memory = { λ a b r h. h };
}

/// A future that waits for a number of polls and then answers a value, each time that it is polled.
#[derive(Clone, Copy, Drop)]
pub(crate) struct Part<X> {
    name: char,
    waits: u64,
    answer: X,
}

pub(crate) fn make_part<X>(name: char, waits: u64, answer: X) -> Part<X>
    ensures { result ≡ record { name = name; waits = waits; answer = answer } }
{
    Part {
        name,
        waits,
        answer,
    }
}

impl<X> FutureExt for Part<X> {}

impl<X: Copy + Drop> TaskFuture<Log> for Part<X> {
    type Output = X;

    ghost is_spent = { λ f. false };

    ghost polls = { λ f c r g d. ⊤ };

    ghost gives = { λ f x. x ≡ f.answer };

    ghost cancels = { λ f c d. ⊤ };

    fn spent(&self) -> bool {
        false
    }

    fn poll<R: Host>(&mut self, _rt: &R, _alloc: Global, cx: &mut Log) -> Poll<X> {
        cx.write(self.name);
        if self.waits > 0 {
            self.waits -= 1;
            return Poll::Pending;
        }
        Poll::Ready(self.answer)
    }

    fn cancel(self, cx: &mut Log) {
        cx.write(self.name.to_ascii_uppercase());
    }
}

/// Polls a future at most `polls` times, until it answers, and gives it up. Returns its answer and the log.
fn drive<A: TaskFuture<Log>, R: Host>(
    rt: &R,
    alloc: Global,
    future: A,
    polls: u64,
) -> (Option<A::Output>, String)
    requires unspent { A.is_spent future ≡ false }
    requires callable { A.can_poll future }
{
    let mut future = future;
    let mut cx = Log {
        me: 0,
        lines: String::new(alloc),
    };
    let mut left = polls;
    while left > 0 {
        left -= 1;
        let polled = future.poll(rt, alloc, &mut cx);
        cx.write('.');
        if let Poll::Ready(output) = polled {
            future.cancel(&mut cx);
            return (Some(output), cx.lines);
        }
    }
    future.cancel(&mut cx);
    (None, cx.lines)
}

/// Polls a future at most `polls` times, until it answers, and gives it up. Compares its answer and the log.
pub(crate) fn goes<A, R>(
    rt: &R,
    alloc: Global,
    future: A,
    polls: u64,
    answer: Option<A::Output>,
    lines: &str,
)
where
    A: TaskFuture<Log, Output: Debug + Drop + PartialEq>,
    R: Host + Abort,
    requires unspent { A.is_spent future ≡ false }
    requires callable { A.can_poll future }
{
    let (got, log) = drive(rt, alloc, future, polls);
    assert_eq!(rt; got, answer);
    assert_eq!(rt; log.as_str(), lines);
}
