// A pool of threads over one locked queue.
ghost use Rattle.std.specs.Prelude.{◌≡◌, ◌⊎◌, ◌-◌, ◌<◌, ◌≤◌, IfOk, OnOk};
ghost use Rattle.mono_blocking.specs.Pool.{Offers};
ghost use Rattle.mono_blocking.specs.declared.strategy.Offered.TheVariants.{Here};
ghost use Rattle.mono_blocking.specs.Counts.{counted_by, HasRisen};

use crate::queue::Queue;
use crate::spawner::Spawner;
use crate::strategy::{Offered, ThreadPool};
use crate::task::{BlockingTask, Job};
use crate::worker::Worker;
use mono_model::Host;
use std::alloc::{AllocError, Global};
use std::sync::Arc;

/// A pool of threads that run blocking tasks in the order in which they were scheduled. A pool without a thread runs
/// them on the caller.
///
/// The threads belong to the spawner that started them. They end once the pool is closed or dropped and the queue is
/// empty.
pub struct DefaultThreadPool<J: Job> {
    queue: Arc<Queue<BlockingTask<J>>, Global>,
    workers: usize,
}

impl<J: Job> DefaultThreadPool<J> {
    /// Asks the spawner for `num_threads` workers, by exactly that number of calls of `start` (`starts`). The spawner's
    /// count of refusals rises by one for each worker that did not start (`exact`). So fewer workers start only if that
    /// count rose (`fewer`), and none starts if the spawner admits none (`admits`). If the call is out of memory,
    /// the workers that started end.
    pub fn new<R: Host + Send + 'static, P: Spawner>(
        rt: &R,
        alloc: Global,
        num_threads: usize,
        spawner: &mut P,
    ) -> Result<DefaultThreadPool<J>, AllocError>
    where
        J: Send + 'static,
        J::Output: Send + 'static,
        J::Unpark: Send + Sync + 'static,
        ensures starts { OnOk result (P.starts spawner.new ≡ counted_by num_threads (P.starts spawner.old)) }
        ensures workers { IfOk result (λ pool. pool.workers ≤ num_threads) }
        ensures fewer { IfOk result (λ pool. pool.workers < num_threads → HasRisen (P.refusals spawner.old) (P.refusals spawner.new)) }
        ensures exact { IfOk result (λ pool. P.refusals spawner.new ≡ counted_by (num_threads - pool.workers) (P.refusals spawner.old)) }
        ensures admits { IfOk result (λ pool. (pool.workers ≡ 0) ⊎ ((s : P) × P.has_admitted s)) }
        ensures later { P.refusals spawner.old ≤ P.refusals spawner.new }
    {
        let queue = Arc::new(alloc, Queue::new(alloc))?;
        match start_workers(rt, &queue, num_threads, spawner) {
            Ok(workers) => Ok(DefaultThreadPool { queue, workers }),
            Err(refused) => {
                queue.close();
                Err(refused)
            }
        }
    }

    /// Returns how many workers were started.
    pub fn workers(&self) -> usize
        ensures { result ≡ self.now.workers }
    {
        self.workers
    }

    /// Closes the pool: the workers end once the queue is empty. They still run each task that waits.
    /// A drop of the pool does the same.
    pub fn close<R: Host>(self, _rt: &R) {
        drop(self);
    }
}

/// A pool that is dropped is closed.
impl<J: Job> Drop for DefaultThreadPool<J> {
    fn drop(self) {
        let DefaultThreadPool { queue, workers: _ } = self;
        queue.close();
    }
}

/// A pool runs a task on the caller if and only if it has no worker (`here`, `only`); otherwise the workers run the
/// tasks in order. A task comes back if the queue is out of memory; it is never refused.
impl<J: Job> ThreadPool for DefaultThreadPool<J> {
    type Job = J;

    ghost refusals = { λ _. 0 };

    ghost runs_here = { λ pool. pool.workers ≡ 0 };

    fn offer<R: Host>(
        &mut self,
        rt: &R,
        _alloc: Global,
        task: &mut Option<BlockingTask<J>>,
    ) -> Offered
        ensures offer { Offers task.old task.new 0 0 result }
        ensures here { self.old.workers ≡ 0 → (result ≡ Here) × (self.new.workers ≡ 0) }
        ensures only { result ≡ Here → self.old.workers ≡ 0 }
    {
        if self.workers == 0 {
            return Offered::Here;
        }
        let Some(taken) = task.take() else {
            return Offered::Taken;
        };
        match self.queue.put(rt, taken) {
            Ok(()) => Offered::Taken,
            Err(back) => {
                *task = Some(back);
                Offered::Memory
            }
        }
    }
}

// Asks for `count` workers, and returns how many started.
fn start_workers<R: Host + Send + 'static, J: Job + Send + 'static, P: Spawner>(
    rt: &R,
    queue: &Arc<Queue<BlockingTask<J>>, Global>,
    num_threads: usize,
    spawner: &mut P,
) -> Result<usize, AllocError>
where
    J::Output: Send + 'static,
    J::Unpark: Send + Sync + 'static,
    ensures starts { OnOk result (P.starts spawner.new ≡ counted_by num_threads (P.starts spawner.old)) }
    ensures workers { IfOk result (λ started. started ≤ num_threads) }
    ensures fewer { IfOk result (λ started. started < num_threads → HasRisen (P.refusals spawner.old) (P.refusals spawner.new)) }
    ensures exact { IfOk result (λ started. P.refusals spawner.new ≡ counted_by (num_threads - started) (P.refusals spawner.old)) }
    ensures admits { IfOk result (λ started. (started ≡ 0) ⊎ ((s : P) × P.has_admitted s)) }
    ensures later { P.refusals spawner.old ≤ P.refusals spawner.new }
{
    let mut started = 0;
    for _ in 0..num_threads {
        let worker = Worker::over(Arc::try_clone(queue)?);
        if spawner.start(rt, worker).is_ok() {
            started += 1;
        }
    }
    Ok(started)
}
