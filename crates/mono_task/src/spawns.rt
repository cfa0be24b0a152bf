// The call of a context that spawns a task.
ghost use Rattle.mono_task.specs.Spawns.{Spawns, NotesMemory};

use crate::error::SpawnRefused;
use crate::join::{JoinContext, JoinHandle};
use std::alloc::Global;

/// A context that spawns tasks, each of which answers an `O`.
///
/// All futures of a context have one type, so a handle and a form need no parameter for it.
pub trait SpawnContext<O>: JoinContext<O> {
    /// The futures that its tasks run.
    type Future: Drop;

    /// Spawns a task that runs this future. The task has the next number and is queued last.
    ///
    /// A refused future comes back, and the tasks stay as they were (`spawned`). If memory was refused, the context notes
    /// it (`memory`).
    fn spawn(
        &mut self,
        alloc: Global,
        future: Self::Future,
    ) -> Result<JoinHandle<O>, SpawnRefused<Self::Future>>
        ensures spawned { Spawns (Self.tasks self.old) future result (Self.tasks self.new) }
        ensures memory { NotesMemory result (Self.is_out_of_memory self.new) }
        ensures reached { Self.reaches self.old self.new };
}
