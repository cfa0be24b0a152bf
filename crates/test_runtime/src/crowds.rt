// Many tasks whose remote wakers are woken, while they live and after their ends.
ghost use Rattle.std.specs.Prelude.{◌≡◌, ⊤, false};
ghost use Rattle.mono_rt.specs.Reaches.{Reaches};
ghost use Rattle.mono_rt.specs.Views.{Rests};

use crate::runs::a_runtime;
use crate::turns::Gives;
use mono_blocking::{BlockingHandle, BlockingStrategy, NoPool};
use mono_driver::StepDriver;
use mono_inbox::{NoUnpark, RemoteWaker};
use mono_machine::Limits;
use mono_model::Host;
use mono_rt::{Cx, RunError, Runtime, TaskWait, start};
use mono_task::{Context, Poll, TaskFuture};
use std::alloc::Global;
use std::process::Abort;
use std::sync::atomic::{AtomicU64, Ordering};
use std::sync::{Arc, Mutex};

/// How many tasks there are, far more than are made known at once.
const CROWD: u64 = 300;

/// For how many turns of the main task all others have ended: more than a round has that began with all of them queued,
/// so that the inbox was drained since.
const REST: u64 = 700;

/// The wakers of all tasks, and how many tasks have ended.
#[derive(Drop)]
struct Shared {
    wakers: Mutex<Vec<RemoteWaker<NoUnpark>>>,
    ended: AtomicU64,
}

/// The next turn of a task.
#[derive(Clone, Copy, Drop)]
enum Part {
    /// The main task makes all tasks.
    Makes,
    /// It wakes each of them.
    Wakes,
    /// Once all have ended, and a number of turns later, it wakes each again; how many wakes were listed before, and
    /// how many turns have passed.
    Waits(u64, u64),
    /// A task hands its waker out.
    Gives,
    /// It hands its waker out and ends in the same turn.
    Leaves,
    /// It waits for nothing.
    Idles,
    /// It ends.
    Ends,
}

#[derive(Drop)]
struct Member {
    part: Part,
    shared: Arc<Shared, Global>,
}

type Own = Cx<Member, u64, NoPool<Gives>, NoUnpark>;

/// Returns how many of these wakes are listed.
fn wake_each<R: Host>(rt: &R, shared: &Shared) -> u64 {
    let mut listed = 0u64;
    let wakers = shared.wakers.lock(rt);
    for waker in wakers.iter() {
        listed = listed.saturating_add(u64::from(waker.wake(rt)));
    }
    listed
}

/// Stores the waker of the running task, if there is one.
fn keep_waker<R: Host>(rt: &R, shared: &Shared, cx: &mut Own)
    ensures { Reaches (λ n. n) cx.old cx.new }
{
    if let Ok(waker) = cx.remote_waker() {
        let _ = shared.wakers.lock(rt).push(waker);
    }
}

/// Makes one more task.
fn put(alloc: Global, cx: &mut Own, shared: &Arc<Shared, Global>)
    ensures { Reaches (λ n. n) cx.old cx.new }
{
    if let Ok(shared) = Arc::try_clone(shared) {
        let part = Part::Gives;
        let _ = cx.spawn(alloc, Member { part, shared });
    }
}

/// Makes all tasks.
fn put_all(alloc: Global, cx: &mut Own, shared: &Arc<Shared, Global>)
    ensures { Reaches (λ n. n) cx.old cx.new }
{
    for _ in 0..CROWD {
        put(alloc, cx, shared);
    }
}

/// Returns the main task's next part, with how many wakes were listed, once all have ended and the inbox was drained.
fn after_rest<R: Host>(rt: &R, shared: &Shared, listed: u64, turns: u64) -> Result<u64, Part> {
    if shared.ended.load(Ordering::SeqCst) < CROWD {
        return Err(Part::Waits(listed, 0));
    }
    if turns < REST {
        return Err(Part::Waits(listed, turns + 1));
    }
    Ok(
        listed
            .saturating_mul(1000)
            .saturating_add(wake_each(rt, shared)),
    )
}

impl Member {
    /// Returns the task's next part, or its output.
    fn act<R: Host>(&self, rt: &R, alloc: Global, cx: &mut Own) -> Result<u64, Part>
        ensures { Reaches (λ n. n) cx.old cx.new }
    {
        match self.part {
            Part::Makes => {
                put_all(alloc, cx, &self.shared);
                Err(Part::Wakes)
            }
            Part::Wakes => Err(Part::Waits(wake_each(rt, &self.shared), 0)),
            Part::Waits(listed, turns) => after_rest(rt, &self.shared, listed, turns),
            Part::Gives => {
                keep_waker(rt, &self.shared, cx);
                Err(Part::Ends)
            }
            Part::Leaves => {
                keep_waker(rt, &self.shared, cx);
                Ok(0)
            }
            Part::Idles => Err(Part::Ends),
            Part::Ends => Ok(self.shared.ended.fetch_add(1, Ordering::SeqCst)),
        }
    }
}

/// Lets a task wait for a wake; the main task queues itself.
fn goes_on(part: Part, cx: &mut Own)
    ensures { Reaches (λ n. n) cx.old cx.new }
{
    if matches!(part, Part::Ends) {
        return;
    }
    let me = cx.me();
    let _ = cx.wake(me);
}

impl TaskFuture<Own> for Member {
    type Output = u64;

    ghost is_spent = { λ f. false };

    ghost polls = { λ f c r g d. ⊤ };

    ghost cancels = { λ f c d. ⊤ };

    fn spent(&self) -> bool {
        false
    }

    fn poll<R: Host>(&mut self, rt: &R, alloc: Global, cx: &mut Own) -> Poll<u64> {
        match self.act(rt, alloc, cx) {
            Ok(output) => Poll::Ready(output),
            Err(part) => {
                self.part = part;
                goes_on(part, cx);
                Poll::Pending
            }
        }
    }

    fn cancel(self, _cx: &mut Own) {}
}

/// Returns the live tasks after one turn of this main task. It has no clauses, so callers have none to carry.
fn left_after_one_turn<R: Host>(
    rt: &R,
    alloc: Global,
    runtime: &mut Runtime<Member, u64, StepDriver, NoPool<Gives>>,
    main: Member,
) -> Vec<TaskWait>
    requires { Rests runtime.old }
{
    let answer = runtime.block_on(rt, alloc, main, 1);
    match (answer, runtime.tasks(alloc)) {
        (Err(RunError::Turns), Ok(list)) => list,
        _ => Vec::new(alloc),
    }
}

/// Returns whether there is one row, and its task handed out its waker and is not stuck.
fn is_handed_out(list: &[TaskWait]) -> bool {
    match list {
        [row] => row.is_handed_out && !row.is_stuck(),
        _ => false,
    }
}

const ONE: Limits = Limits {
    tasks: 1,
    jobs: 0,
    sleeps: 0,
};

/// Returns a task with this next part, which shares its values with no other.
fn lone<R: Abort>(rt: &R, alloc: Global, part: Part) -> Member {
    let shared = Shared {
        wakers: Mutex::new(Vec::new(alloc)),
        ended: AtomicU64::new(0),
    };
    Member {
        part,
        shared: Arc::new(alloc, shared).expect(rt, "memory"),
    }
}

/// Returns a runtime for one such task at a time.
fn for_one<R: Abort>(rt: &R, alloc: Global) -> Runtime<Member, u64, StepDriver, NoPool<Gives>>
    ensures { Rests result }
{
    let pool = BlockingHandle::Empty(BlockingStrategy::Panic);
    let driver = StepDriver::new(Vec::new(alloc));
    a_runtime(rt, alloc, driver, pool, ONE, true)
}

#[test]
fn a_task_whose_waker_was_handed_out_is_not_stuck(rt: HostRuntime) {
    let alloc = rt.alloc();
    let main = lone(&rt, alloc, Part::Gives);
    let mut runtime = for_one(&rt, alloc);
    let list = left_after_one_turn(&rt, alloc, &mut runtime, main);
    assert!(rt; runtime.into_pool().is_none());
    assert!(rt; is_handed_out(&list));
}

/// Runs a main task that hands its waker out and ends. Returns whether it did. The waker serves the next task.
fn leaves<R: Host + Abort>(
    rt: &R,
    alloc: Global,
    runtime: &mut Runtime<Member, u64, StepDriver, NoPool<Gives>>,
) -> bool
    requires { Rests runtime.old }
    ensures { Rests runtime.new }
{
    let main = lone(rt, alloc, Part::Leaves);
    matches!(runtime.block_on(rt, alloc, main, 9), Ok(0))
}

/// Returns whether there is one row, and its task handed out no waker and is stuck.
fn is_stuck(list: &[TaskWait]) -> bool {
    match list {
        [row] => row.is_stuck() && !row.is_handed_out,
        _ => false,
    }
}

// The runtime uses the waker of a task that ended again. It keeps no mark of that task, whose waker was handed out.
#[test]
fn a_waker_that_is_used_again_was_not_handed_out(rt: HostRuntime) {
    let alloc = rt.alloc();
    let mut runtime = for_one(&rt, alloc);
    assert!(rt; leaves(&rt, alloc, &mut runtime));
    let main = lone(&rt, alloc, Part::Idles);
    let list = left_after_one_turn(&rt, alloc, &mut runtime, main);
    assert!(rt; runtime.into_pool().is_none());
    assert!(rt; is_stuck(&list));
}

#[test]
fn each_waker_of_a_crowd_wakes_its_task_and_none_that_ended(rt: HostRuntime) {
    let alloc = rt.alloc();
    let shared = Shared {
        wakers: Mutex::new(Vec::new(alloc)),
        ended: AtomicU64::new(0),
    };
    let main = Member {
        part: Part::Makes,
        shared: Arc::new(alloc, shared).expect(&rt, "memory"),
    };
    let driver = StepDriver::new(Vec::new(alloc));
    let answer = start::<_, _, _, NoPool<Gives>, _>(&rt, alloc, driver, main, 100000);
    assert_eq!(rt; answer, Ok(300000));
}
