// How the context of a runtime goes on.

/// How a later context of a runtime comes from an earlier one.
#[derive(Clone, Copy, Debug, PartialEq, Eq, Drop)]
pub enum Passage {
    /// By calls of the running task.
    Calls,
    /// By the beginning of a turn of this task.
    Begin(u64),
    /// By the end of a turn of this task, after its poll.
    End(u64),
    /// By whole turns, rounds or calls of `block_on`: by all that their clause `answers` allows.
    Turns,
}
