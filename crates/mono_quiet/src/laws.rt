//! What follows for a runtime of quiet futures, as functions that do nothing.
ghost use Rattle.std.specs.Prelude.{⊤};
ghost use Rattle.mono_rt.specs.Pollable.{SpawnsPollable};

use crate::futures::Quiet;
use mono_blocking::ThreadPool;
use mono_inbox::Unpark;
use mono_joinword::Outcome;
use mono_rt::Cx;
use mono_task::SharedState;

/// Shows that each future that a turn of quiet futures spawns can be polled: it spawns none. So `run_alone` and `start`
/// may run one whose closures rest on what they captured.
pub fn quiet_futures_spawn_none<F, O, P, U, W>(_main: &F)
where
    F: Quiet<Cx<F, O, P, U, W>, Output = O> + Drop,
    O: Outcome + Drop,
    P: ThreadPool + Drop,
    U: Unpark,
    W: SharedState + Drop,
    ensures { SpawnsPollable F.TaskFuture ⊤ }
{}
