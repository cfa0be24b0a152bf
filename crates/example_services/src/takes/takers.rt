// A task that takes tokens, and one that sleeps.
ghost use Rattle.std.specs.Prelude.{◌≡◌};
ghost use Rattle.mono_sync.specs.Runs.{Leads};
ghost use Rattle.mono_serve.specs.BucketCalls.{Step};
ghost use Rattle.example_services.specs.Parties.{is_over};

use crate::takes::shelves::{Note, Shelf};
use mono_rt::{
    Host, LateError, Poll, SharedContext, SleepFor, TaskFuture, TimeContext, TimeoutFor, sleep_for,
    timeout_for,
};
use mono_serve::{Take, TakeError};
use std::alloc::Global;
use std::time::Duration;

/// The answer to a take with a limited time.
#[derive(Clone, Copy)]
pub enum Answer {
    /// The tokens are the task's.
    Took,
    /// The task gave up.
    GaveUp,
    /// The bucket never gives the tokens.
    Refused,
    /// Some other call failed.
    Failed,
}

/// A task that takes tokens, or one that sleeps.
#[derive(Drop)]
pub enum Party {
    /// It takes tokens within some time; its name.
    Takes(TimeoutFor<Take<Shelf>>, u64),
    /// It sleeps.
    Naps(SleepFor),
}

impl Party {
    /// Returns a task that takes `n` tokens of a bucket, and gives up after some milliseconds.
    pub fn taker(name: u64, bucket: u64, n: u64, patience_ms: u64) -> Party {
        Party::Takes(
            timeout_for(Duration::from_millis(patience_ms), Take::new(bucket, n)),
            name,
        )
    }

    /// Returns a task that sleeps for some milliseconds.
    pub fn nap(ms: u64) -> Party {
        Party::Naps(sleep_for(Duration::from_millis(ms)))
    }
}

/// Returns the word for an answer.
pub fn word(answer: Answer) -> &'static str {
    match answer {
        Answer::Took => "took",
        Answer::GaveUp => "gave up",
        Answer::Refused => "was refused",
        Answer::Failed => "failed",
    }
}

// Returns the answer of a take.
fn answer_of(answer: Result<Result<(), TakeError>, LateError>) -> Answer {
    match answer {
        Ok(Ok(())) => Answer::Took,
        Ok(Err(TakeError::Refused(_))) => Answer::Refused,
        Ok(Err(_)) => Answer::Failed,
        Err(LateError::Elapsed(_)) => Answer::GaveUp,
        Err(_) => Answer::Failed,
    }
}

// Notes an answer, if there is memory for it.
fn note<C: SharedContext<Shelf>>(cx: &mut C, name: u64, answer: Answer)
    ensures { C.reaches cx.old cx.new }
{
    let at_ms = (cx.now() / 1000000) as u64;
    push_note(
        cx.shared_mut(),
        Note {
            at_ms,
            name,
            answer,
        },
    );
}

// Appends a note, if there is memory for it.
fn push_note(shelf: &mut Shelf, note: Note)
    ensures leads { Leads Step shelf.old.buckets shelf.new.buckets }
    ensures buckets { shelf.new.buckets ≡ shelf.old.buckets }
{
    let _ = shelf.notes.push(note);
}

impl<C: TimeContext + SharedContext<Shelf>> TaskFuture<C> for Party {
    type Output = u64;

    ghost is_spent = { is_over };

    fn spent(&self) -> bool {
        match self {
            Party::Takes(take, _) => TaskFuture::<C>::spent(take),
            Party::Naps(nap) => TaskFuture::<C>::spent(nap),
        }
    }

    fn poll<R: Host>(&mut self, rt: &R, alloc: Global, cx: &mut C) -> Poll<u64> {
        match self {
            Party::Takes(take, name) => match take.poll(rt, alloc, cx) {
                Poll::Pending => Poll::Pending,
                Poll::Ready(result) => {
                    note(cx, *name, answer_of(result));
                    Poll::Ready(*name)
                }
            },
            Party::Naps(nap) => match nap.poll(rt, alloc, cx) {
                Poll::Pending => Poll::Pending,
                Poll::Ready(_) => Poll::Ready(0),
            },
        }
    }

    fn cancel(self, cx: &mut C) {
        match self {
            Party::Takes(take, _) => take.cancel(cx),
            Party::Naps(nap) => nap.cancel(cx),
        }
    }
}
