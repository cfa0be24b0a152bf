// Futures that are generic over their context: one spawns tasks, and one starts a job.
ghost use Rattle.std.specs.Prelude.{⊤};

use crate::jobs::Gives;
use mono_forms::FutureExt;
use mono_rt::{
    BlockingHandle, BlockingStrategy, Host, JobContext, JobHandle, JoinHandle, Limits, NoJob,
    NoPool, Outcome, Poll, RunError, SleepFor, SpawnContext, StepDriver, TaskFuture, TimeContext,
    run_alone, sleep_for,
};
use std::alloc::Global;
use std::process::Abort;
use std::time::Duration;

/// Spawns a task for each of some numbers, one after the other, and answers the sum of their outputs; 99 if one was
/// refused.
#[derive(Drop)]
struct Sums {
    left: u64,
    sum: u64,
    handle: Option<JoinHandle<u64>>,
}

impl Sums {
    // Spawns the next task, which the sum awaits from the next turn on.
    fn go_on<C, F>(&mut self, alloc: Global, cx: &mut C) -> Poll<u64>
    where
        C: SpawnContext<u64, Future = F>,
        F: From<u64> + Drop,
        ensures { C.reaches cx.old cx.new }
    {
        if self.left == 0 {
            return Poll::Ready(self.sum);
        }
        let Ok(handle) = cx.spawn(alloc, F::from(self.left)) else {
            return Poll::Ready(99);
        };
        self.left -= 1;
        self.handle = Some(handle);
        cx.wake_me();
        Poll::Pending
    }
}

impl<C, F> TaskFuture<C> for Sums
where
    C: SpawnContext<u64, Future = F>,
    F: From<u64> + Drop,
{
    type Output = u64;

    fn spent(&self) -> bool {
        false
    }

    fn poll<R: Host>(&mut self, rt: &R, alloc: Global, cx: &mut C) -> Poll<u64> {
        let Some(mut handle) = self.handle.take() else {
            return self.go_on(alloc, cx);
        };
        match handle.poll(rt, alloc, cx) {
            Poll::Pending => {
                self.handle = Some(handle);
                Poll::Pending
            }
            Poll::Ready(output) => {
                handle.cancel(cx);
                self.sum = self.sum.saturating_add(output.unwrap_or(0));
                self.go_on(alloc, cx)
            }
        }
    }

    fn cancel(self, cx: &mut C) {
        if let Some(handle) = self.handle {
            handle.cancel(cx);
        }
    }
}

/// A task that spawns others, or one that answers its number after as many milliseconds.
#[derive(Drop)]
enum Work {
    Sums(Sums),
    Sleeps(SleepFor, u64),
}

impl From<u64> for Work {
    ghost from_gives = { λ _ _. ⊤ };

    fn from(number: u64) -> Work {
        Work::Sleeps(sleep_for(Duration::from_millis(number)), number)
    }
}

impl<C: TimeContext + SpawnContext<u64, Future = Work>> TaskFuture<C> for Work {
    type Output = u64;

    fn spent(&self) -> bool {
        false
    }

    fn poll<R: Host>(&mut self, rt: &R, alloc: Global, cx: &mut C) -> Poll<u64> {
        match self {
            Work::Sums(sums) => sums.poll(rt, alloc, cx),
            Work::Sleeps(sleep, number) => {
                if TaskFuture::<C>::spent(sleep) {
                    return Poll::Ready(0);
                }
                match TaskFuture::<C>::poll(sleep, rt, alloc, cx) {
                    Poll::Pending => Poll::Pending,
                    Poll::Ready(_) => Poll::Ready(*number),
                }
            }
        }
    }

    fn cancel(self, cx: &mut C) {
        match self {
            Work::Sums(sums) => sums.cancel(cx),
            Work::Sleeps(sleep, _) => sleep.cancel(cx),
        }
    }
}

/// Runs a sum of so many tasks on a runtime of its own, with place for so many tasks.
fn sum<R: Host + Abort>(rt: &R, alloc: Global, left: u64, tasks: u64) -> Result<u64, RunError> {
    let limits = Limits {
        tasks,
        jobs: 0,
        sleeps: 1,
    };
    let driver = StepDriver::new(Vec::new(alloc));
    let pool: BlockingHandle<NoPool<NoJob>> = BlockingHandle::Empty(BlockingStrategy::Panic);
    let work = Work::Sums(Sums {
        left,
        sum: 0,
        handle: None,
    });
    let (answer, _journal) = run_alone(rt, alloc, driver, pool, limits, work, 1000).expect(
        rt, "memory",
    );
    answer
}

#[test]
fn a_task_spawns_others_one_after_the_other(rt: HostRuntime) {
    assert_eq!(rt; sum(&rt, rt.alloc(), 3, 2), Ok(6));
    assert_eq!(rt; sum(&rt, rt.alloc(), 3, 1), Ok(99));
}

/// Starts a job at its first poll, and answers its handle. It never answers if the job was refused.
#[derive(Drop)]
pub(crate) struct Begins<J> {
    job: Option<J>,
}

impl<J> FutureExt for Begins<J> {}

impl<J: Outcome + Drop, C: JobContext<Job = J>> TaskFuture<C> for Begins<J> {
    type Output = JobHandle;

    fn spent(&self) -> bool {
        false
    }

    fn poll<R: Host>(&mut self, rt: &R, alloc: Global, cx: &mut C) -> Poll<JobHandle> {
        let Some(job) = self.job.take() else {
            return Poll::Pending;
        };
        match cx.spawn_blocking(rt, alloc, job) {
            Ok(handle) => Poll::Ready(handle),
            Err(_) => Poll::Pending,
        }
    }

    fn cancel(self, _cx: &mut C) {}
}

/// Returns a future that starts the job which gives this number.
pub(crate) fn begin(number: u64) -> Begins<Gives> {
    Begins {
        job: Some(Gives(number)),
    }
}
