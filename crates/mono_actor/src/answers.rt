// The answers of the calls on the actors.

/// Why a call on the actors was refused. A refused call changed nothing.
///
/// If several causes hold, the first in this order counts, except that `Memory` comes last.
#[derive(Clone, Copy, Debug, PartialEq, Eq, Drop)]
pub enum ActorError {
    /// An allocation failed.
    Memory,
    /// No actor is queued.
    Idle,
    /// There is no place for a further actor or message.
    AtCapacity,
    /// No live actor has the number.
    NoActor,
}

/// The effect of a message on its receiver.
#[derive(Clone, Copy, Debug, PartialEq, Eq, Drop)]
pub enum Sent {
    /// The receiver was idle, and is queued now.
    Queued,
    /// The receiver was queued or running.
    Waits,
}

/// The input of an actor's turn.
#[derive(Clone, Copy, Debug, PartialEq, Eq, Drop)]
pub enum Got<M> {
    /// The first message of its mailbox, with its sender.
    Message(u64, M),
    /// No message came until its timeout.
    Timeout,
}

/// How a turn ended.
#[derive(Clone, Copy, Debug, PartialEq, Eq, Drop)]
pub enum After {
    /// The actor waits for a message.
    Idle,
    /// The actor has messages, and is queued again.
    Again,
    /// The actor was removed.
    Stopped,
}

/// A message that was not sent, and why.
#[derive(Debug, PartialEq, Eq, Drop)]
pub struct SendRefused<M> {
    /// Why it was refused.
    pub cause: ActorError,
    /// The message.
    pub message: M,
}
