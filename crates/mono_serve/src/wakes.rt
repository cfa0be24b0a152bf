// Wakes of tasks that are served.
ghost use Rattle.std.specs.Prelude.{◌≡◌};
ghost use Rattle.mono_model.specs.Tasks.{woken_if_any};

use mono_task::{SharedContext, SharedState};

// Wakes the task, if any.
pub(crate) fn wake_task<W: SharedState, C: SharedContext<W>>(cx: &mut C, task: Option<u64>)
    ensures shared { C.shared cx.new ≡ C.shared cx.old }
    ensures work { C.work cx.new ≡ woken_if_any (C.work cx.old) task }
    ensures reached { C.reaches cx.old cx.new }
{
    if let Some(task) = task {
        let _ = cx.wake(task);
    }
}
