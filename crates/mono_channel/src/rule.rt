// What the ends of a channel know, and the rule that its queue keeps.
ghost use Rattle.std.specs.Prelude.{◌≡◌, ◌<◌, [], IfOk};
ghost use Rattle.crossbeam_queue.specs.Passes.{view, IsPassOf, ruled_capacity};
ghost use Rattle.mono_channel.specs.Delivery.{hand, all_shares};

use crossbeam_queue::protocol::{Join, Lesson, Outcome, Protocol, Split};
use crossbeam_queue::{Pass, RuledArrayQueue};
use std::alloc::{AllocError, Global};
use std::collections::LinkedList;
use std::marker::{Brand, PhantomData};

/// What one end of a channel has done. It exists in proofs alone.
pub struct Hand<T> {
    /// It may send.
    pub sends: bool,
    /// It may receive.
    pub receives: bool,
    /// Its shares of the channel. The ends have all of them together, or fewer.
    pub shares: u64,
    /// What it sent.
    pub sent: LinkedList<T>,
    /// What it received.
    pub received: LinkedList<T>,
    /// What each settled sender sent.
    pub settled: LinkedList<LinkedList<T>>,
}

/// The rule of a channel's queue: what arrives is what was sent.
pub struct Delivery;

impl<T> Protocol<T, Hand<T>> for Delivery {
    ghost use Rattle.std.specs.Prelude.{[]};
    ghost use Rattle.mono_channel.specs.Delivery.{Delivers, hand, all_shares};

    ghost holds = { Delivers };

    ghost first = { hand all_shares [] [] };
}

/// The first sender, which gets the receiver's shares.
pub struct Opens;

impl<T> Split<Hand<T>> for Opens {
    ghost use Rattle.std.specs.Prelude.{[]};
    ghost use Rattle.mono_channel.specs.Delivery.{hand, sender};

    ghost left = { λ v. hand 0 v.received v.settled };

    ghost right = { λ v. sender v.shares [] };
}

/// A further sender, which has sent nothing, and gets one share.
pub struct Joins;

impl<T> Split<Hand<T>> for Joins {
    ghost use Rattle.std.specs.Prelude.{[]};
    ghost use Rattle.mono_channel.specs.Delivery.{sender, shares_kept, shares_given};

    ghost left = { λ v. sender (shares_kept v.shares) v.sent };

    ghost right = { λ v. sender (shares_given v.shares) [] };
}

/// The receiver takes a sender in, and knows what it sent.
pub struct Settles;

impl<T> Join<Hand<T>> for Settles {
    ghost use Rattle.std.specs.Prelude.{[], ◌+◌, ◌++◌, ◌∷◌};
    ghost use Rattle.mono_channel.specs.Delivery.{hand, spent};

    ghost both = { λ v w. hand (v.shares + w.shares) v.received (v.settled ++ w.sent ∷ []) };

    ghost spent = { spent };
}

/// How many places a queue has. It exists in proofs alone: who sends picks the number.
pub trait Places {
    ghost use Rattle.std.specs.Prelude.{ℕ};

    ghost places: { ℕ };
}

impl Places for Brand {
    ghost places = { 0 };
}

/// A message was sent, while fewer were queued than the queue has places.
pub struct Sent<P: Places> {
    places: PhantomData<P>,
}

impl<T, P: Places> Outcome<T, Hand<T>> for Sent<P> {
    ghost use Rattle.std.specs.Prelude.{◌≡◌, [], ◌++◌, ◌∷◌};
    ghost use Rattle.mono_channel.specs.Delivery.{sender};
    ghost use Rattle.mono_channel.specs.Queues.{IsQueued, HeldBelow};

    ghost then = { λ v x w. (w ≡ sender v.shares (v.sent ++ x ∷ [])) × HeldBelow P.places (IsQueued v.sent) };
}

impl<T, P: Places> Lesson<T, Hand<T>> for Sent<P> {
    ghost use Rattle.mono_channel.specs.Queues.{IsQueued};

    ghost fact = { λ v items. IsQueued v.sent items };
}

/// A message was received, or none was left.
pub struct Received;

impl<T> Outcome<T, Hand<T>> for Received {
    ghost use Rattle.std.specs.Prelude.{◌≡◌, [], ◌++◌, ◌∷◌};
    ghost use Rattle.mono_channel.specs.Delivery.{hand};

    ghost then = { λ v x w. w ≡ hand v.shares (v.received ++ x ∷ []) v.settled };
}

impl<T> Lesson<T, Hand<T>> for Received {
    ghost use Rattle.std.specs.Prelude.{◌++◌};
    ghost use Rattle.mono_channel.specs.Delivery.{Arrived};

    ghost fact = { λ v items. Arrived v.shares (v.received ++ items) v.settled };
}

/// A queue that keeps the rule.
pub type Queue<T> = RuledArrayQueue<T, Hand<T>, Delivery>;

/// What one end knows of the queue. It has no bytes.
pub type End<T> = Pass<T, Hand<T>>;

// The queue, and the receiver's end of it.
pub(crate) fn queue_of<T: Drop>(
    alloc: Global,
    bound: usize,
) -> Result<(Queue<T>, End<T>), AllocError>
    requires { 0 < bound }
    ensures end { IfOk result (λ q. IsPassOf q.0 q.1 × (view q.1 ≡ hand all_shares [] [])) }
    ensures bound { IfOk result (λ q. ruled_capacity q.0 ≡ bound) }
{
    Queue::ruled(alloc, bound)
}
