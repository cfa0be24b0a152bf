// The calls of a context that spawns tasks, by a runtime's context.

use crate::contexts::Cx;
use mono_blocking::ThreadPool;
use mono_inbox::Unpark;
use mono_joinword::Outcome;
use mono_task::{JoinHandle, SharedState, SpawnContext, SpawnRefused};
use std::alloc::Global;

impl<
    F: Drop,
    O: Outcome + Drop,
    P: ThreadPool + Drop,
    U: Unpark,
    W: SharedState + Drop,
> SpawnContext<O> for Cx<F, O, P, U, W> {
    type Future = F;

    fn spawn(&mut self, alloc: Global, future: F) -> Result<JoinHandle<O>, SpawnRefused<F>> {
        Cx::spawn(self, alloc, future)
    }
}
