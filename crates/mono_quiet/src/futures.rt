// Futures that make no task.
ghost use Rattle.mono_model.specs.declared.poll.Poll.{Poll};
ghost use Rattle.mono_quiet.specs.Numbers.{MakesNone};

use mono_task::{Context, TaskFuture};

/// A future that makes no task: no poll spawns one, and neither does giving the future up.
///
/// All futures of a runtime have one type. If they are quiet, the runtime polls only those that it was given, so each of
/// them may rest on what its closures captured (`laws::quiet_futures_spawn_none`).
pub trait Quiet<C: Context>: TaskFuture<C> {
    /// Does nothing. An impl with closures among its bounds has to write it out, since it needs one method of its own.
    fn is_quiet(&self) {}

    // no task is made between the contexts before and after a poll, or before and after the future is given up
    ghost polls_make_none: { (f : Self) (c : C) (r : Poll Self.Output) (g : Self) (d : C) → Self.polls f c r g d → MakesNone C.work c d };

    ghost cancels_make_none: { (f : Self) (c d : C) → Self.cancels f c d → MakesNone C.work c d };
}
