// Several wakes one after another, and a wake of an optional task.
ghost use Rattle.std.specs.Prelude.{◌≡◌};
ghost use Rattle.mono_model.specs.Tasks.{all_woken, woken_if_any};
ghost use Rattle.mono_task.specs.Schedule as schedule;

use crate::Tasks;

/// Wakes each task of a list, in order.
pub fn wake_all<O: Drop>(tasks: &mut Tasks<O>, woken: &[u64])
    ensures { tasks.new ≡ schedule.with_tasks tasks.old (all_woken tasks.old.tasks woken.now) }
{
    for t in woken {
        let _ = tasks.wake(*t);
    }
}

/// Wakes a task, if there is one.
pub fn wake_if_any<O: Drop>(tasks: &mut Tasks<O>, waker: Option<u64>)
    ensures { tasks.new ≡ schedule.with_tasks tasks.old (woken_if_any tasks.old.tasks waker) }
{
    if let Some(t) = waker {
        let _ = tasks.wake(t);
    }
}
