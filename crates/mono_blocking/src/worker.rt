// The work of a pool's thread.
use crate::queue::Queue;
use crate::task::{BlockingTask, Job};
use mono_model::Host;
use std::alloc::Global;
use std::sync::Arc;

/// The share of one thread in a pool's queue. A drop takes no task with it.
#[derive(Drop)]
pub struct Worker<J: Job> {
    queue: Arc<Queue<BlockingTask<J>>, Global>,
}

impl<J: Job> Worker<J> {
    /// Returns a worker on this queue.
    pub(crate) fn over(queue: Arc<Queue<BlockingTask<J>>, Global>) -> Worker<J> {
        Worker { queue }
    }

    /// Takes tasks from the pool's queue and runs them, until the pool is closed and the queue is empty.
    pub fn run<R: Host>(self, rt: &R) {
        for _ in rt.forever() {
            match self.queue.next(rt) {
                Some(task) => drop(task.run(rt)),
                None => return,
            }
        }
    }
}
