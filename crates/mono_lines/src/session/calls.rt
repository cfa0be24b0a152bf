// The calls that lines make on the sessions.

/// A call on the sessions, written as a line.
#[derive(Clone, Copy, Debug, PartialEq, Eq)]
pub enum SessionCall {
    /// Opens a session, for this number of milliseconds after its last heartbeat.
    Open(u64),
    /// Renews a session.
    Beat(u64),
    /// Closes a session.
    Close(u64),
    /// Appends a session to the queue of a key: the session, and the key.
    Acquire(u64, u64),
    /// Removes a session from the queue of a key: the session, and the key.
    Release(u64, u64),
    /// Asks for the holder of a key.
    Owner(u64),
    /// Shows the clock this number of nanoseconds.
    Clock(u128),
}
