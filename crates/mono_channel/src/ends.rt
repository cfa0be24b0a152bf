// The two ends of a channel, and what they share.
use crate::gate::Gate;
use crate::rule::{End, Queue};
use crate::stakes::{SenderCount, Stake};
use mono_inbox::Unpark;
use std::alloc::Global;
use std::marker::Model;
use std::sync::{Arc, Mutex};

/// What the ends of a channel share: the queue, the count of open senders, and who waits, under a lock.
#[derive(Drop)]
pub(crate) struct Shared<T: Drop, U: Unpark> {
    pub(crate) queue: Queue<T>,
    pub(crate) senders: SenderCount,
    pub(crate) gate: Mutex<Gate<U>>,
}

/// Sends messages from any thread.
#[derive(Drop)]
pub struct Sender<T: Drop, U: Unpark> {
    pub(crate) shared: Arc<Shared<T, U>, Global>,
    pub(crate) end: End<T>,
    // what it counts for among the open senders
    pub(crate) stake: Stake,
    pub(crate) is_closed: bool,
    // its seat in the line of those who wait, from its first pending poll until its message is sent
    pub(crate) seat: Option<u64>,
}

/// Receives the messages of all senders, in its own thread.
#[derive(Drop)]
pub struct Receiver<T: Drop, U: Unpark> {
    pub(crate) shared: Arc<Shared<T, U>, Global>,
    pub(crate) end: End<T>,
    // what it knows of the open senders
    pub(crate) stake: Stake,
    pub(crate) is_closed: bool,
}

impl<T: Drop, U: Unpark> Model for Sender<T, U> {
    ghost use Rattle.std.specs.Arc.{arc_value};
    ghost use Rattle.std.specs.Prelude.{◌≡◌, false};
    ghost use Rattle.crossbeam_queue.specs.Passes.{IsPassOf};
    ghost use Rattle.mono_channel.specs.Stakes.{IsStakeOf};
    ghost use Rattle.mono_channel.specs.Ends.{Ends, Sends, end_of, weight};

    ghost Value = { Ends T };

    ghost view = { λ s. end_of s.end s.stake s.is_closed false };

    ghost invariant = { λ s. IsPassOf (arc_value s.shared).queue s.end × Sends s.end × IsStakeOf (arc_value s.shared).senders s.stake × (s.stake.me.0.senders ≡ weight s.is_closed) };
}

impl<T: Drop, U: Unpark> Model for Receiver<T, U> {
    ghost use Rattle.std.specs.Arc.{arc_value};
    ghost use Rattle.crossbeam_queue.specs.Passes.{IsPassOf};
    ghost use Rattle.mono_channel.specs.Stakes.{IsStakeOf};
    ghost use Rattle.mono_channel.specs.Ends.{Ends, Receives, end_of};

    ghost Value = { Ends T };

    ghost view = { λ r. end_of r.end r.stake r.is_closed r.stake.me.0.over };

    ghost invariant = { λ r. IsPassOf (arc_value r.shared).queue r.end × Receives r.end × IsStakeOf (arc_value r.shared).senders r.stake };
}
