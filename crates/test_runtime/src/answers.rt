// What a task answers, from its spawn to its handle.
ghost use Rattle.std.specs.Prelude.{IfSome};

use crate::builders::builder;
use crate::turns::Gives;
use crate::waits::{Work, ready};
use mono_answers::laws::what_a_spawned_task_answers;
use mono_blocking::NoPool;
use mono_inbox::NoUnpark;
use mono_model::Host;
use mono_rt::{Cx, Runtime, StepDriver};
use mono_task::{Poll, TaskFuture};
use std::alloc::Global;
use std::process::Abort;

/// Spawns a task on a runtime of its own, runs turns until it has an output, and returns that. It is one that the task's
/// future gives.
fn output_of<F, R: Host + Abort>(rt: &R, alloc: Global, task: F) -> Option<u64>
where
    F: TaskFuture<Cx<F, u64, NoPool<Gives>, NoUnpark>, Output = u64> + Drop,
    requires callable { (f : F) → F.can_poll f }
    ensures given { IfSome result (F.gives task) }
{
    what_a_spawned_task_answers::<F, u64, NoPool<Gives>, NoUnpark, ()>();
    let mut runtime: Runtime<F, u64, StepDriver, NoPool<Gives>> = builder(alloc)
        .build(alloc)
        .expect(rt, "memory");
    let Ok(handle) = runtime.spawn(alloc, task) else {
        return None;
    };
    if runtime.run_until(rt, alloc, &handle, 10).is_err() {
        return None;
    }
    match runtime.poll_join(&handle) {
        Ok(Poll::Ready(output)) => Some(output),
        Ok(Poll::Pending) | Err(_) => None,
    }
}

#[test]
fn a_task_answers_what_its_future_gives(rt: HostRuntime) {
    let two = ready(&rt, rt.alloc(), 2);
    assert_eq!(rt; output_of(&rt, rt.alloc(), two), Some(2));
    assert_eq!(rt; output_of(&rt, rt.alloc(), Work::Waits), None);
}
