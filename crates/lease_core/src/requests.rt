// The requests that a core performs, and its replies.

use mono_actor::{ActorError, Got, Sent};
use mono_limit::{LimitError, Take};
use mono_session::SessionError;

/// A call on the leases, the buckets or the mailboxes of one core. Numbers of sessions, buckets and actors are those
/// that the same core gave.
#[derive(Clone, Copy, Debug, PartialEq, Eq, Drop)]
pub enum Call {
    /// Opens a session, for this number of milliseconds after its last heartbeat.
    Open(u64),
    /// Renews a session.
    Beat(u64),
    /// Closes a session.
    Close(u64),
    /// Appends a session to the queue of the request's key. The reply comes once the session holds the lock.
    Acquire(u64),
    /// Removes a session from the queue of the request's key.
    Release(u64),
    /// Appends a session to the queue of the request's key if the queue is empty. Otherwise the session does not wait.
    Try(u64),
    /// Asks which session holds the lock of the request's key.
    Owner,
    /// Asks how much there is in the core.
    Count,
    /// Adds a full bucket: its burst, and the milliseconds of a period.
    Bucket(u64, u64),
    /// Takes tokens: the bucket, and their number.
    Take(u64, u64),
    /// Adds an actor.
    Spawn,
    /// Sends a message: the sender, the receiver and the message.
    Send(u64, u64, u64),
    /// Runs the turn of the actor that has been queued for the longest time.
    Receive,
}

/// How much there is in a core.
#[derive(Clone, Copy, Debug, PartialEq, Eq, Drop)]
pub struct Counts {
    /// The open sessions.
    pub sessions: u64,
    /// The entries in the queues of all keys.
    pub entries: u64,
    /// The live actors.
    pub actors: u64,
    /// The acquires that wait.
    pub waiting: u64,
}

/// A request with its number and the key that decides its core.
#[derive(Clone, Copy, Debug, PartialEq, Eq, Drop)]
pub struct Request {
    /// The number by which the reply comes back.
    pub number: u64,
    /// The key: of a lock, a client or a mailbox.
    pub key: u64,
    /// The call.
    pub call: Call,
}

/// The answer to a request.
#[derive(Clone, Copy, Debug, PartialEq, Eq, Drop)]
pub enum Outcome {
    /// The session was opened, and has this number.
    Opened(u64),
    /// The call was performed.
    Done,
    /// The session holds the lock of the key.
    Held,
    /// The session left the queue before it held the lock.
    Left,
    /// The session was closed before it held the lock.
    Closed,
    /// The input ended before the session held the lock.
    Ended,
    /// Another session holds the lock of the key, and this one does not wait for it.
    Busy,
    /// This session holds the lock of the key.
    Owned(u64),
    /// No session holds the lock of the key.
    Free,
    /// So much there is in the core.
    Counted(Counts),
    /// The bucket was added, and has this number.
    Added(u64),
    /// The bucket's answer.
    Took(Take),
    /// The actor was added, and has this number.
    Spawned(u64),
    /// The message was sent.
    Posted(Sent),
    /// An actor had its turn, with this input.
    Ran(u64, Got<u64>),
    /// The leases refused the call.
    LeaseRefused(SessionError),
    /// The buckets refused the call.
    LimitRefused(LimitError),
    /// The mailboxes refused the call.
    MailRefused(ActorError),
}

/// The reply to a request.
#[derive(Clone, Copy, Debug, PartialEq, Eq, Drop)]
pub struct Reply {
    /// The request's number.
    pub number: u64,
    /// The core's tick when the request came.
    pub arrived: u64,
    /// The core's tick when the request was answered.
    pub tick: u64,
    /// The answer.
    pub outcome: Outcome,
}
