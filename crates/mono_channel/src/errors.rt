// Why a message was not sent or received.

/// A message that was not sent at once. It comes back.
#[derive(Debug, Drop)]
pub enum TrySendError<T> {
    /// Each place is taken.
    Full(T),
    /// The channel or the sender was closed.
    Closed(T),
}

/// A message that was not sent. It comes back.
#[derive(Debug, Drop)]
pub enum SendError<T> {
    /// The channel or the sender was closed.
    Closed(T),
    /// There was no memory to wait in.
    Memory(T),
}

/// Why no message was received at once.
#[derive(Debug, Drop)]
pub enum TryRecvError {
    /// No message is queued.
    Empty,
    /// No message is queued, and the channel was closed.
    Disconnected,
}
