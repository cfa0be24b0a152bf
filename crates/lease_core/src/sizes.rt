// The sizes of a core.

/// The greatest numbers of what one core keeps.
#[derive(Clone, Copy, Debug, PartialEq, Eq, Drop)]
pub struct Sizes {
    /// Open sessions.
    pub sessions: u64,
    /// Entries in the queues of all keys.
    pub entries: u64,
    /// Buckets.
    pub buckets: u64,
    /// Live actors.
    pub actors: u64,
    /// Messages in all mailboxes.
    pub messages: u64,
}
