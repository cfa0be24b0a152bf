// Forms on the futures of services and of ticks, on built runtimes.
use mono_forms::FutureExt;
use mono_rt::{
    Cx, Error, Host, Instant, Interval, NoPool, NoUnpark, Outcome, Poll, RunError, Runtime,
    RuntimeBuilder, SharedState, StepDriver, TaskFuture, TimeContext, TimeDriver, interval,
};
use mono_serve::{Buckets, Take, TakeError};
use mono_sync::Only;
use std::alloc::Global;
use std::process::Abort;
use std::time::Duration;

/// Runs a main task on a runtime of its own, whose tasks share this value.
pub(crate) fn run<F, O, W, R: Host + Abort>(
    rt: &R,
    alloc: Global,
    shared: W,
    future: F,
) -> Result<O, RunError>
where
    F: TaskFuture<Cx<F, O, NoPool, NoUnpark, W>, Output = O> + Drop,
    O: Outcome + Drop,
    W: SharedState + Drop,
    requires { (f : F) → F.can_poll f }
{
    let driver = TimeDriver::new(StepDriver::new(Vec::new(alloc)));
    let builder: RuntimeBuilder<_, NoPool> = RuntimeBuilder::new(driver);
    let mut runtime = builder.build_sharing(alloc, shared).expect(rt, "memory");
    runtime.block_on(rt, alloc, future, 10)
}

// The bucket has two tokens, and gains one each 10 ms. The third token comes after a sleep.
#[test]
fn a_take_is_followed_by_another(rt: HostRuntime) {
    let mut buckets = Buckets::new(rt.alloc(), 1).expect(&rt, "memory");
    buckets.add(rt.alloc(), 2, 10).expect(&rt, "bucket");
    let take: Take<Only<Buckets>> = Take::new(0, 2);
    let task = take.and_then(|_: ()| Take::<Only<Buckets>>::new(0, 1)).map(|answer: Result<
        (),
        TakeError,
    >| if answer.is_ok() { 3u64 } else { 0 });
    assert_eq!(rt; run(&rt, rt.alloc(), Only { part: buckets }, task), Ok(3));
}

/// A task that waits for three ticks, 5 ms apart.
#[derive(Drop)]
struct Beats {
    ticks: Option<Interval>,
    count: u64,
}

// Polls for the next tick, by a form.
fn comes<C: TimeContext, R: Host>(
    rt: &R,
    alloc: Global,
    cx: &mut C,
    ticks: &mut Interval,
) -> Poll<bool>
    ensures { C.reaches cx.old cx.new }
{
    let mut next = ticks
        .tick()
        .map(|tick: Result<Instant, Error>| tick.is_ok());
    next.poll(rt, alloc, cx)
}

impl Beats {
    // Waits for a tick. The task runs again after its turn, unless it was the last one.
    fn beat<C: TimeContext, R: Host>(
        &mut self,
        rt: &R,
        alloc: Global,
        cx: &mut C,
        ticks: Interval,
    ) -> Poll<u64>
        ensures { C.reaches cx.old cx.new }
    {
        let mut ticks = ticks;
        match comes(rt, alloc, cx, &mut ticks) {
            Poll::Ready(true) => {
                self.count = self.count.saturating_add(1);
                cx.wake_me();
            }
            Poll::Ready(false) => self.count = 9,
            Poll::Pending => {}
        }
        if self.count < 3 {
            self.ticks = Some(ticks);
            return Poll::Pending;
        }
        ticks.cancel(cx);
        Poll::Ready(self.count)
    }
}

impl<C: TimeContext> TaskFuture<C> for Beats {
    type Output = u64;

    fn spent(&self) -> bool {
        false
    }

    fn poll<R: Host>(&mut self, rt: &R, alloc: Global, cx: &mut C) -> Poll<u64> {
        if let Some(ticks) = self.ticks.take() {
            return self.beat(rt, alloc, cx, ticks);
        }
        match interval(alloc, cx, Duration::from_millis(5)) {
            Ok(ticks) => self.beat(rt, alloc, cx, ticks),
            Err(_) => Poll::Ready(0),
        }
    }

    fn cancel(self, cx: &mut C) {
        if let Some(ticks) = self.ticks {
            ticks.cancel(cx);
        }
    }
}

#[test]
fn three_ticks_come(rt: HostRuntime) {
    let beats = Beats {
        ticks: None,
        count: 0,
    };
    assert_eq!(rt; run(&rt, rt.alloc(), (), beats), Ok(3));
}
