// A pool of the tests, which keeps its tasks until they are run.
ghost use Rattle.std.specs.Prelude.{◌≡◌};
ghost use Rattle.mono_blocking.specs.Pool.{Offers};
ghost use Rattle.mono_blocking.specs.declared.strategy.Offered.TheVariants.{Here};

use crate::jobs::Gives;
use mono_blocking::{BlockingTask, Offered, ThreadPool};
use mono_model::Host;
use std::alloc::Global;
use std::process::Abort;
use std::sync::{Arc, Mutex};

/// The waiting tasks.
pub(crate) type Waiting = Arc<Mutex<Vec<BlockingTask<Gives>>>, Global>;

/// A pool that keeps the tasks that it gets, and refuses one of them, counted from 0.
#[derive(Drop)]
pub(crate) struct Keeps {
    waiting: Waiting,
    asked: u64,
    refused: u64,
    pub(crate) refusals: u64,
}

impl ThreadPool for Keeps {
    type Job = Gives;

    ghost refusals = { λ pool. pool.refusals };

    fn offer<R: Host>(
        &mut self,
        rt: &R,
        _alloc: Global,
        task: &mut Option<BlockingTask<Gives>>,
    ) -> Offered
        ensures offer { Offers task.old task.new self.old.refusals self.new.refusals result }
        ensures here { ⊥ → (result ≡ Here) × ⊥ }
    {
        let call = self.asked;
        self.asked = call.saturating_add(1);
        if call == self.refused {
            self.refusals = self.refusals.saturating_add(1);
            return Offered::Refused;
        }
        let mut waiting = self.waiting.lock(rt);
        if waiting.reserve(1).is_err() {
            return Offered::Memory;
        }
        if let Some(task) = task.take() {
            waiting.push_reserved(task);
        }
        Offered::Taken
    }
}

/// Returns a pool that refuses this task, and its waiting tasks.
pub(crate) fn pool_refusing<R: Abort>(rt: &R, alloc: Global, refused: u64) -> (Keeps, Waiting) {
    let waiting = Arc::new(alloc, Mutex::new(Vec::new(alloc))).expect(rt, "memory");
    let pool = Keeps {
        waiting: Arc::try_clone(&waiting).expect(rt, "memory"),
        asked: 0,
        refused,
        refusals: 0,
    };
    (pool, waiting)
}

/// Runs the waiting tasks, at most `most`.
pub(crate) fn run_all<R: Host>(rt: &R, waiting: &Waiting, most: u64) {
    for _ in 0..most {
        let Some(task) = waiting.lock(rt).pop() else {
            return;
        };
        drop(task.run(rt));
    }
}
