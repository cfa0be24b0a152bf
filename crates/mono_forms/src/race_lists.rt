// The first answer of many futures.
ghost use Rattle.std.specs.Prelude.{◌≡◌, ◌||◌, false, true, None};
ghost use Rattle.std.specs.List.{list_any, All};
ghost use Rattle.mono_model.specs.Poll.{OnPending, IfReady, ready_value};
ghost use Rattle.mono_combine.specs.BranchLists.{EachInTurn};
ghost use Rattle.mono_forms.specs.Parts.{MayPoll};
ghost use Rattle.mono_forms.specs.RaceLists.{RacesOnce, AllCancel, OneGives, RaceListPolls};

use mono_model::{Host, Poll};
use mono_task::{Context, TaskFuture};
use std::alloc::Global;
use std::mem;

/// Many futures of one type; the answer is that of the first to answer. Each poll polls them in the written order, up
/// to the first that answers.
///
/// Then all are given up in the written order, and the form is spent. A race of no futures waits forever.
#[derive(Drop)]
pub struct RaceList<T> {
    pub(crate) futures: Vec<T>,
    pub(crate) has_answered: bool,
}

// Returns whether a future is spent.
fn any_spent<C: Context, T: TaskFuture<C>>(futures: &Vec<T>) -> bool
    ensures { result ≡ list_any T.is_spent futures.now.items }
{
    for future in futures {
        if future.spent() {
            return true;
        }
    }
    false
}

// Polls the futures in the written order, up to the first that answers.
fn poll_in_turn<R: Host, C: Context, T: TaskFuture<C>>(
    rt: &R,
    alloc: Global,
    cx: &mut C,
    futures: &mut Vec<T>,
) -> Poll<T::Output>
    requires { All (MayPoll T.TaskFuture) futures.old.items }
    ensures polled { EachInTurn (RacesOnce T.TaskFuture) futures.old.items (record { won = None; cx = cx.old }) futures.new.items (record { won = ready_value result; cx = cx.new }) }
    ensures again { OnPending result (All (MayPoll T.TaskFuture) futures.new.items) }
    ensures given { IfReady result (OneGives T.gives futures.old.items) }
    ensures same { OnPending result ((x : _) → OneGives T.gives futures.new.items x → OneGives T.gives futures.old.items x) }
    ensures reached { C.reaches cx.old cx.new }
{
    for i in 0..futures.len() {
        if let Poll::Ready(x) = futures[i].poll(rt, alloc, cx) {
            return Poll::Ready(x);
        }
    }
    Poll::Pending
}

// Gives up the futures, in the written order.
fn cancel_each<C: Context, T: TaskFuture<C>>(cx: &mut C, futures: Vec<T>)
    ensures cancelled { AllCancel T.cancels futures.items cx.old cx.new }
    ensures reached { C.reaches cx.old cx.new }
{
    let mut left = futures.into_iter();
    while let Some(future) = left.next() {
        future.cancel(cx);
    }
}

impl<C: Context, T: TaskFuture<C>> TaskFuture<C> for RaceList<T> {
    type Output = T::Output;

    ghost is_spent = { λ f. f.has_answered || list_any T.is_spent f.futures.items };

    ghost can_poll = { λ f. All T.can_poll f.futures.items };

    ghost polls = { λ f c r g d. RaceListPolls T.TaskFuture f.futures.items c r g.futures.items g.has_answered d };

    ghost gives = { λ f. OneGives T.gives f.futures.items };

    ghost cancels = { λ f c d. AllCancel T.cancels f.futures.items c d };

    fn spent(&self) -> bool {
        self.has_answered || any_spent(&self.futures)
    }

    fn poll<R: Host>(&mut self, rt: &R, alloc: Global, cx: &mut C) -> Poll<T::Output> {
        match poll_in_turn(rt, alloc, cx, &mut self.futures) {
            Poll::Ready(x) => {
                self.has_answered = true;
                let futures = mem::replace(&mut self.futures, Vec::new(alloc));
                cancel_each(cx, futures);
                Poll::Ready(x)
            }
            Poll::Pending => Poll::Pending,
        }
    }

    fn cancel(self, cx: &mut C) {
        cancel_each(cx, self.futures);
    }
}
