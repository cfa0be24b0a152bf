//! Tasks and their run queue, the context that a running task sees, the value that tasks share, futures, and join
//! handles.
#![tactic(auto)]

mod context;
mod entries;
mod error;
mod future;
mod join;
mod phases;
mod shared_context;
mod shared_state;
mod spawns;
mod table;
mod wakers;

pub use context::Context;
pub use error::{SpawnRefused, SpawnTask};
pub use future::TaskFuture;
pub use join::{JoinContext, JoinHandle};
pub use mono_model::{Ended, MAX_NANOS, Poll, TaskError, Woke};
pub use phases::TaskPhase;
pub use shared_context::SharedContext;
pub use shared_state::SharedState;
pub use spawns::SpawnContext;
pub use table::Tasks;
pub use wakers::{wake_all, wake_if_any};
