// What a future does with several messages of a channel in one turn.
ghost use Rattle.std.specs.Prelude.{◌≡◌, ℕ, is_some, true};
ghost use Rattle.mono_sync.specs.MpscRuns.{Leads};
ghost use Rattle.mono_sync.specs.Mpsc.{listed_by};
ghost use Rattle.mono_sync.specs.ManyMessages.{AnswersMany};
ghost use Rattle.mono_task.specs.Owed.{Keeps};

use crate::acts::performs::{Act, AtOnce, perform};
use crate::mpsc::Channel;
use crate::parts::Holds;
use std::alloc::{AllocError, Global};
use std::marker::PhantomData;

/// A call of [`try_recv_many`].
#[derive(Drop)]
pub struct TryRecvManyCall<T> {
    pub(crate) limit: usize,
    message: PhantomData<T>,
}

/// Receives the first messages at once, at most `limit`, and answers them in their order. A message that is owed to a task that
/// waits, or promised to one that was served, stays in the queue.
///
/// Refused, with no message taken, if out of memory.
pub fn try_recv_many<W, T>(limit: usize) -> AtOnce<W, TryRecvManyCall<T>>
    ensures unspent { is_some result.act ≡ true }
{
    perform(TryRecvManyCall {
        limit,
        message: PhantomData,
    })
}

// Takes messages at once, in a new list.
pub(crate) fn try_recv_new<T: Drop>(
    channel: &mut Channel<T>,
    alloc: Global,
    limit: usize,
) -> Result<Vec<T>, AllocError>
    ensures answer { AnswersMany channel.old limit result channel.new }
    ensures leads { Leads channel.old channel.new }
    ensures keeps { (me : ℕ) → Keeps listed_by me channel.old channel.new }
{
    let mut messages = Vec::new(alloc);
    match channel.try_recv_many(limit, &mut messages) {
        Ok(_) => Ok(messages),
        Err(failed) => Err(failed),
    }
}

// Takes messages at once, in the whole.
fn try_recv_part<W: Holds<Channel<T>>, T: Drop>(
    whole: &mut W,
    alloc: Global,
    limit: usize,
) -> Result<Vec<T>, AllocError>
    ensures answer { AnswersMany (W.part whole.old) limit result (W.part whole.new) }
    ensures leads { W.leads whole.old whole.new }
    ensures keeps { (me : ℕ) → Keeps W.lists me whole.old whole.new }
{
    try_recv_new(whole.part_mut(), alloc, limit)
}

impl<W: Holds<Channel<T>>, T: Drop> Act<W> for TryRecvManyCall<T> {
    type Answer = Result<Vec<T>, AllocError>;

    ghost acts = { λ a w r v. AnswersMany (W.part w) a.limit r (W.part v) };

    fn act(self, alloc: Global, shared: &mut W) -> Result<Vec<T>, AllocError> {
        try_recv_part::<W, T>(shared, alloc, self.limit)
    }
}
