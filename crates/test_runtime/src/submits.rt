// A driver whose submit wakes a task: the drain after it finds the wake.
ghost use Rattle.std.specs.Prelude.{⊤, false};
ghost use Rattle.mono_rt.specs.Reaches.{Reaches};
ghost use Rattle.mono_rt.specs.Views.{Rests};

use crate::cases::is_woken;
use crate::runs::a_runtime;
use crate::turns::Gives;
use mono_blocking::{BlockingHandle, BlockingStrategy, NoPool};
use mono_driver::{Clock, Driver, DriverFault, StepDriver};
use mono_inbox::{NoUnpark, RemoteWaker};
use mono_machine::Limits;
use mono_model::Host;
use mono_rt::{Cx, Instant, RunError, Runtime};
use mono_task::{Context, Poll, TaskFuture};
use std::alloc::{AllocError, Global};
use std::sync::{Arc, Mutex};
use std::time::Duration;

/// The waker of the main task, once it handed it out.
#[derive(Drop)]
struct Shared {
    waker: Mutex<Option<RemoteWaker<NoUnpark>>>,
}

/// Wakes the task whose waker is kept, if there is one.
fn wake_kept<R: Host>(rt: &R, shared: &Shared) {
    if let Some(waker) = &*shared.waker.lock(rt) {
        let _ = waker.wake(rt);
    }
}

/// A driver that never waits, and whose submit wakes the main task.
#[derive(Drop)]
struct Waking<D> {
    driver: D,
    shared: Arc<Shared, Global>,
}

impl<D: Driver> Clock for Waking<D> {
    ghost readings = { λ w. D.readings w.driver };

    ghost time = { λ w. D.time w.driver };

    ghost faults = { λ w. D.faults w.driver };

    ghost parks = { λ w. D.parks w.driver };

    ghost submits = { λ w. D.submits w.driver };

    ghost can_fail = { λ w. D.can_fail w.driver };

    fn now(&mut self) -> Instant {
        self.driver.now()
    }
}

impl<D: Driver> Driver for Waking<D> {
    type Unpark = D::Unpark;

    fn submit<R: Host>(&mut self, rt: &R) -> Result<(), DriverFault> {
        wake_kept(rt, &self.shared);
        self.driver.submit(rt)
    }

    fn park<R: Host>(&mut self, rt: &R) -> Result<(), DriverFault> {
        self.driver.park(rt)
    }

    fn park_timeout<R: Host>(&mut self, rt: &R, longest: Duration) -> Result<(), DriverFault> {
        self.driver.park_timeout(rt, longest)
    }

    fn unpark(&self) -> Result<D::Unpark, AllocError> {
        self.driver.unpark()
    }
}

/// A future that hands out its waker and wakes itself in each of its turns, and is never ready.
#[derive(Drop)]
struct Busy {
    shared: Arc<Shared, Global>,
}

type Own = Cx<Busy, u64, NoPool<Gives>, NoUnpark>;

/// Keeps the waker of the running task, if there is one.
fn keep_waker<R: Host>(rt: &R, shared: &Shared, cx: &mut Own)
    ensures { Reaches (λ n. n) cx.old cx.new }
{
    let handed = cx.remote_waker();
    *shared.waker.lock(rt) = handed.ok();
}

impl TaskFuture<Own> for Busy {
    type Output = u64;

    ghost is_spent = { λ f. false };

    ghost polls = { λ f c r g d. ⊤ };

    ghost cancels = { λ f c d. ⊤ };

    fn spent(&self) -> bool {
        false
    }

    fn poll<R: Host>(&mut self, rt: &R, _alloc: Global, cx: &mut Own) -> Poll<u64> {
        keep_waker(rt, &self.shared, cx);
        let me = cx.me();
        let _ = cx.wake(me);
        Poll::Pending
    }

    fn cancel(self, _cx: &mut Own) {}
}

const ONE: Limits = Limits {
    tasks: 1,
    jobs: 0,
    sleeps: 0,
};

/// Returns how the main task ends within four turns. It has no clauses, so callers have none to carry.
fn four_turns<R: Host>(
    rt: &R,
    alloc: Global,
    runtime: &mut Runtime<Busy, u64, Waking<StepDriver>, NoPool<Gives>>,
    main: Busy,
) -> Result<u64, RunError>
    requires { Rests runtime.old }
{
    runtime.block_on(rt, alloc, main, 4)
}

// A round of one queued task has three turns, each with its reading. The submit after them wakes the task, and the drain
// finds that wake: it has the eighth entry.
#[test]
fn a_drain_finds_what_its_submit_woke(rt: HostRuntime) {
    let alloc = rt.alloc();
    let waker = Mutex::new(None);
    let shared = Arc::new(alloc, Shared { waker }).expect(&rt, "memory");
    let main = Busy {
        shared: Arc::try_clone(&shared).expect(&rt, "memory"),
    };
    let driver = Waking {
        driver: StepDriver::new(Vec::new(alloc)),
        shared,
    };
    let pool = BlockingHandle::Empty(BlockingStrategy::Panic);
    let mut runtime = a_runtime(&rt, alloc, driver, pool, ONE, false);
    let answer = four_turns(&rt, alloc, &mut runtime, main);
    assert_eq!(rt; answer, Err(RunError::Turns));
    assert!(rt; is_woken(runtime.journal(), 7));
    assert!(rt; runtime.into_pool().is_none());
}
