// What a task does between two steps of its executor.
/// The phase of a live task.
#[derive(Clone, Copy, Debug, PartialEq, Eq)]
pub enum TaskPhase {
    /// It waits for a wake.
    Idle,
    /// It is in the run queue.
    Queued,
    /// Its turn runs.
    Running,
    /// It has finished, and its handle is kept.
    Finished,
}
