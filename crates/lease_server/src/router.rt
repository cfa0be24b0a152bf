// The task that reads the requests and sends each to the core of its key.
ghost use Rattle.lease_server.specs.Intakes.{Polls};
ghost use Rattle.lease_server.specs.Routers.{LeadsOn};

use crate::intakes::Intake;
use crate::status;
use mono_rt::{
    Host, NoPool, Poll, RemoteContext, RemoteWaker, Runtime, RuntimeBuilder, SharedContext,
    SharedState, SystemClock, TaskFuture, ThreadDriver, UnparkHandle,
};
use mono_text::Source;
use std::alloc::{AllocFailed, Global};
use std::marker::PhantomData;

/// The lines that were read and what was sent of them agree, and the channels stay.
impl<S: Source> SharedState for Intake<S> {
    ghost use Rattle.lease_server.specs.Routers.{LeadsOn, itself, on};

    ghost leads = { LeadsOn S.left S.faults };

    #[inline(always)]
    fn next_owed(&mut self) -> Option<u64> {
        None
    }

    ghost leads_itself = { itself S.left S.faults };

    ghost leads_on = { on S.left S.faults };

    ghost lists_some = { λ a p t is. is };
}

/// A task that reads lines to the end of the input, numbers them from 1, and sends each request to the core of its key.
/// It answers each line that is no request itself. It answers a status. Its intake is the value that its runtime's tasks
/// share.
#[derive(Drop)]
pub struct Router<S> {
    of: PhantomData<S>,
}

impl<C: RemoteContext<UnparkHandle> + SharedContext<Intake<S>>, S: Source + Drop> TaskFuture<C>
    for Router<S> {
    ghost use Rattle.lease_server.specs.Intakes.{Polls};

    ghost polls = { λ old before answer new after. Polls S.left (C.shared before) answer (C.shared after) };

    type Output = u64;

    fn spent(&self) -> bool {
        false
    }

    fn poll<R: Host>(&mut self, rt: &R, alloc: Global, cx: &mut C) -> Poll<u64> {
        let Ok(waker) = cx.remote_waker() else {
            return Poll::Ready(status::MEMORY);
        };
        route_shared(rt, alloc, cx, &waker)
    }

    fn cancel(self, _cx: &mut C) {}
}

// Reads and sends by the shared intake.
fn route_shared<C: SharedContext<Intake<S>>, S: Source, R: Host>(
    rt: &R,
    alloc: Global,
    cx: &mut C,
    waker: &RemoteWaker<UnparkHandle>,
) -> Poll<u64>
    ensures polled { Polls S.left (C.shared cx.old) result (C.shared cx.new) }
    ensures reached { C.reaches cx.old cx.new }
{
    cx.shared_mut().poll(rt, alloc, waker)
}

// The runtime of the router. Its task shares the intake.
type RouterRuntime<R, S> = Runtime<Router<S>, u64, ThreadDriver<SystemClock<R>>, NoPool, Intake<S>>;

/// Runs the task of a router on a new runtime of this thread. Returns its status, and the intake: what was read and what
/// was given agree, also if out of memory.
pub fn run_router<R: Host + Copy, S: Source + Drop>(
    rt: R,
    alloc: Global,
    intake: Intake<S>,
) -> (u64, Intake<S>)
    ensures { LeadsOn S.left S.faults intake result.1 }
{
    let Ok(driver) = ThreadDriver::new(alloc, SystemClock::new(rt)) else {
        return (status::MEMORY, intake);
    };
    let builder: RuntimeBuilder<_, NoPool> = RuntimeBuilder::new(driver);
    let made: Result<RouterRuntime<R, S>, AllocFailed<Intake<S>>> = builder.build_sharing(
        alloc, intake,
    );
    match made {
        Err(failed) => (status::MEMORY, failed.value),
        Ok(mut runtime) => {
            let task = Router { of: PhantomData };
            let status = runtime
                .block_on(&rt, alloc, task, u64::MAX)
                .unwrap_or(status::MEMORY);
            (status, runtime.into_shared())
        }
    }
}
