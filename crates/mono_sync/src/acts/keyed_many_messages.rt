// What a future does with several messages of one of many channels in one turn.
ghost use Rattle.std.specs.Prelude.{◌≡◌, ℕ, is_some, true};
ghost use Rattle.mono_sync.specs.Mpsc.{listed_by, owed_by, waiting_in};
ghost use Rattle.mono_sync.specs.MpscRuns.{Leads};
ghost use Rattle.mono_sync.specs.Many.{LeadsEach, lists_each};
ghost use Rattle.mono_sync.specs.KeyedMany.{AnswersManyAt};
ghost use Rattle.mono_task.specs.Owed.{Keeps};

use crate::acts::many_messages::try_recv_new;
use crate::acts::performs::{Act, AtOnce, perform};
use crate::mpsc::Channel;
use crate::parts::Holds;
use crate::tables::Many;
use std::alloc::{AllocError, Global};
use std::marker::PhantomData;

/// A call of [`try_recv_many_at`].
#[derive(Drop)]
pub struct TryRecvManyAtCall<T> {
    pub(crate) key: u64,
    pub(crate) limit: usize,
    message: PhantomData<T>,
}

/// Receives the first messages of the channel with this key at once, at most `limit`, and answers them in their order. Answers
/// none if there is no such channel. A message that is owed to a task that waits, or promised to one that was served, stays in
/// the queue.
///
/// Refused, with no message taken, if out of memory.
pub fn try_recv_many_at<W, T>(key: u64, limit: usize) -> AtOnce<W, TryRecvManyAtCall<T>>
    ensures unspent { is_some result.act ≡ true }
{
    perform(TryRecvManyAtCall {
        key,
        limit,
        message: PhantomData,
    })
}

// Takes messages of the channel with this key.
fn try_recv_table<T: Drop>(
    channels: &mut Many<Channel<T>>,
    alloc: Global,
    key: u64,
    limit: usize,
) -> Result<Vec<T>, AllocError>
    ensures answer { AnswersManyAt key channels.old limit result channels.new }
    ensures leads { LeadsEach Leads waiting_in owed_by channels.old channels.new }
    ensures keeps { (me : ℕ) → Keeps (lists_each listed_by) me channels.old channels.new }
{
    if channels.get(key).is_none() {
        return Ok(Vec::new(alloc));
    }
    try_recv_new(channels.part_mut(key), alloc, limit)
}

// Takes messages of the channel with this key, in the whole.
fn try_recv_part<W: Holds<Many<Channel<T>>>, T: Drop>(
    whole: &mut W,
    alloc: Global,
    key: u64,
    limit: usize,
) -> Result<Vec<T>, AllocError>
    ensures answer { AnswersManyAt key (W.part whole.old) limit result (W.part whole.new) }
    ensures leads { W.leads whole.old whole.new }
    ensures keeps { (me : ℕ) → Keeps W.lists me whole.old whole.new }
{
    try_recv_table(whole.part_mut(), alloc, key, limit)
}

impl<W: Holds<Many<Channel<T>>>, T: Drop> Act<W> for TryRecvManyAtCall<T> {
    type Answer = Result<Vec<T>, AllocError>;

    ghost acts = { λ a w r v. AnswersManyAt a.key (W.part w) a.limit r (W.part v) };

    fn act(self, alloc: Global, shared: &mut W) -> Result<Vec<T>, AllocError> {
        try_recv_part::<W, T>(shared, alloc, self.key, self.limit)
    }
}
