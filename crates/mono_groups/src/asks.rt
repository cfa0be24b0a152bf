// A future that asks the shared value for something, and waits until it has it.
ghost use Rattle.std.specs.Prelude.{◌≡◌, true, false, ℕ, Option};
ghost use Rattle.std.specs.declared.option.Option.TheVariants.{None};
ghost use Rattle.mono_model.specs.Poll.{OnReady};
ghost use Rattle.mono_groups.specs.declared.waiters.Asked.{Asked};
ghost use Rattle.mono_groups.specs.Polls.{AskPolls, AskGives, AskCancels, ask_spent};
ghost use Rattle.mono_task.specs.Owed.{Keeps};

use crate::waiters::Asked;
use mono_forms::FutureExt;
use mono_model::{Host, Poll};
use mono_task::{SharedContext, SharedState, TaskFuture};
use std::alloc::{AllocError, Global};
use std::marker::PhantomData;

/// A call on the shared value that may make its task wait.
///
/// A call specifies what it answers and what it leaves (`asks`), and what a future leaves that is given up (`leaves`). It
/// leads the value as the value's own calls do, and takes out no task but its own.
pub trait Ask<W: SharedState>: Drop {
    /// What the future gets.
    type Gets;

    // What the call of a task with a ticket may answer, and the value before and after it.
    ghost asks: { Self → Option ℕ → ℕ → W → Asked Self.Gets → W → Type 0 };

    // The value before and after a future with a ticket is given up, in a turn of a task.
    ghost leaves: { Self → Option ℕ → ℕ → W → W → Type 0 };

    /// Asks for a future of this task, or makes it wait. The ticket is the one that the future drew before.
    fn ask(&self, shared: &mut W, ticket: Option<u64>, me: u64) -> Asked<Self::Gets>
        ensures asked { asks self.now ticket me shared.old result shared.new }
        ensures leads { W.leads shared.old shared.new }
        ensures keeps { Keeps W.lists me shared.old shared.new };

    /// Takes a future out of those that wait, in a turn of this task.
    fn leave(&self, shared: &mut W, ticket: Option<u64>, me: u64)
        ensures left { leaves self.now ticket me shared.old shared.new }
        ensures leads { W.leads shared.old shared.new }
        ensures keeps { Keeps W.lists me shared.old shared.new };
}

/// A future that makes a call on the shared value, and waits until it has what it asked for.
#[derive(Drop)]
pub struct Asking<W, K> {
    pub(crate) call: K,
    pub(crate) ticket: Option<u64>,
    pub(crate) has_answered: bool,
    shared: PhantomData<W>,
}

/// Returns a future that makes this call.
pub fn ask_for<W, K>(call: K) -> Asking<W, K>
    ensures call { result.call ≡ call }
    ensures ticket { result.ticket ≡ None }
    ensures unspent { result.has_answered ≡ false }
{
    Asking {
        call,
        ticket: None,
        has_answered: false,
        shared: PhantomData,
    }
}

// Asks for the running task's future.
fn ask_in<W: SharedState, C: SharedContext<W>, K: Ask<W>>(
    cx: &mut C,
    call: &K,
    ticket: Option<u64>,
) -> Asked<K::Gets>
    ensures asked { K.asks call.now ticket (C.number cx.old) (C.shared cx.old) result (C.shared cx.new) }
    ensures work { C.work cx.new ≡ C.work cx.old }
    ensures reached { C.reaches cx.old cx.new }
{
    let me = cx.me();
    call.ask(cx.shared_mut(), ticket, me)
}

// Takes the running task's future out of those that wait.
fn leave_in<W: SharedState, C: SharedContext<W>, K: Ask<W>>(
    cx: &mut C,
    call: &K,
    ticket: Option<u64>,
)
    ensures left { K.leaves call.now ticket (C.number cx.old) (C.shared cx.old) (C.shared cx.new) }
    ensures work { C.work cx.new ≡ C.work cx.old }
    ensures reached { C.reaches cx.old cx.new }
{
    let me = cx.me();
    call.leave(cx.shared_mut(), ticket, me)
}

/// The future answers what it asked for. It fails if out of memory.
impl<W: SharedState, C: SharedContext<W>, K: Ask<W>> TaskFuture<C> for Asking<W, K> {
    type Output = Result<K::Gets, AllocError>;

    ghost is_spent = { ask_spent };

    ghost polls = { λ f c r g d. AskPolls (K.asks f.call) C.number C.shared C.work f.ticket c r g.ticket d × (g.call ≡ f.call) × OnReady r ((g.ticket ≡ None) × (g.has_answered ≡ true)) };

    ghost gives = { λ f. AskGives (K.asks f.call) C.number C.shared C.work };

    ghost cancels = { λ f c d. AskCancels (K.leaves f.call) C.number C.shared C.work f.ticket c d };

    fn spent(&self) -> bool {
        self.has_answered
    }

    fn poll<R: Host>(
        &mut self,
        _rt: &R,
        _alloc: Global,
        cx: &mut C,
    ) -> Poll<Result<K::Gets, AllocError>> {
        match ask_in::<W, C, K>(cx, &self.call, self.ticket) {
            Asked::Waits => Poll::Pending,
            Asked::Joined(ticket) => {
                self.ticket = Some(ticket);
                Poll::Pending
            }
            Asked::Got(got) => {
                self.ticket = None;
                self.has_answered = true;
                Poll::Ready(Ok(got))
            }
            Asked::Memory => {
                self.ticket = None;
                self.has_answered = true;
                Poll::Ready(Err(AllocError))
            }
        }
    }

    fn cancel(self, cx: &mut C) {
        leave_in::<W, C, K>(cx, &self.call, self.ticket)
    }
}

impl<W, K> FutureExt for Asking<W, K> {}
