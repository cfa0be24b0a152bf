// The blocking jobs of a runtime: the table of jobs whose handles are kept, the pool that runs them, and their handles.

mod ends;
mod handles;
mod pool;
mod refusals;
mod table;

pub use ends::{Answered, End, PolledJob};
pub use handles::JobHandle;
pub use pool::{Blockings, OutputOf};
pub use refusals::{PollJob, SpawnError};
pub use table::JobTable;
