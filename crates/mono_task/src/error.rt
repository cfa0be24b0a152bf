// Why a spawn was refused.
use thiserror::Error;

/// The reason why a spawn was refused.
#[derive(Clone, Copy, Debug, PartialEq, Eq, Error)]
pub enum SpawnTask {
    /// The allocation of the task failed.
    #[error("out of memory")]
    Memory,
    /// The number of live tasks is at the limit, or the numbers are used up.
    #[error("no place for another task")]
    AtCapacity,
}

/// A future that was not spawned, and is handed back.
#[derive(Drop)]
pub enum SpawnRefused<F> {
    /// The allocation of its task failed.
    Memory(F),
    /// The limit of live tasks is reached, or the numbers are used up.
    AtCapacity(F),
}
