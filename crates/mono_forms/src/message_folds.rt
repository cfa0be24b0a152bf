// Messages that a closure combines.
ghost use Rattle.std.specs.Prelude.{◌≡◌, false};
ghost use Rattle.std.specs.declared.option.Option.TheVariants.{Some};
ghost use Rattle.mono_forms.specs.Turns.{Leaves};
ghost use Rattle.mono_forms.specs.MessageFolds.{FoldsMessages, fold_spent, FoldCanPoll, FoldMessagesGives};

use mono_blocking::RemoteContext;
use mono_channel::{IntoRecv, Receiver};
use mono_inbox::Unpark;
use mono_joinword::Outcome;
use mono_model::{Host, Poll};
use mono_task::TaskFuture;
use std::alloc::{AllocError, Global};

// The greatest number of turns in one poll, one for each message.
const TURNS: u64 = 128;

/// The output of `fold_messages`. As a task's output it has the number of its value.
#[derive(Drop)]
pub struct Folded<T: Drop, U: Unpark, S> {
    /// The receiver, after the messages that it received.
    pub receiver: Receiver<T, U>,
    /// What the closure made of the messages.
    pub value: S,
    /// Whether the channel ended, or there was no memory to wait in.
    pub result: Result<(), AllocError>,
}

impl<T: Drop, U: Unpark, S: Outcome> Outcome for Folded<T, U, S> {
    ghost output_number = { λ output. S.output_number output.value };

    fn number(&self) -> u64 {
        self.value.number()
    }
}

/// A future that receives each message over a receiver that it owns, in order, and combines them by a closure
/// (`fold_messages`). It answers with the receiver once the channel has ended, or once out of memory.
///
/// One poll receives at most 128 messages; then it wakes its own task and returns `Pending`. A poll requires (`can_poll`)
/// that the closure may be called at each message, and at the value that it made of the messages before. A future that is
/// given up drops its receiver, which is not closed: under a timeout, in a race or in a select, use `Receiver::recv`.
#[derive(Drop)]
pub struct FoldMessages<T: Drop, U: Unpark, S, F> {
    pub(crate) inner: Option<(IntoRecv<T, U>, S)>,
    pub(crate) func: F,
}

/// Returns a future that receives each message until the channel ends, combines them by `func` from `initial` on, and
/// answers the receiver with the last value.
///
/// The value is that of exactly the messages that the receiver received, in order.
pub fn fold_messages<T: Drop, U: Unpark, S, F: FnMut(S, T) -> S>(
    receiver: Receiver<T, U>,
    initial: S,
    func: F,
) -> FoldMessages<T, U, S, F>
    ensures { (x : _) → FoldMessagesGives F.FnMut result x → FoldsMessages F.FnMut receiver initial func x }
{
    FoldMessages {
        inner: Some((receiver.into_recv(), initial)),
        func,
    }
}

impl<T: Drop, U: Unpark, S: Drop, F: FnMut(S, T) -> S> FoldMessages<T, U, S, F> {
    // Receives one message. Returns the poll's answer, or `None` if the poll continues.
    fn turn<C: RemoteContext<U>, R: Host>(
        &mut self,
        rt: &R,
        alloc: Global,
        cx: &mut C,
    ) -> Option<Poll<Folded<T, U, S>>>
        requires unspent { fold_spent self.old ≡ false }
        requires callable { FoldCanPoll F.FnMut self.old }
        ensures leaves { Leaves fold_spent (FoldCanPoll F.FnMut) (FoldMessagesGives F.FnMut) self.old result self.new }
        ensures reached { C.reaches cx.old cx.new }
    {
        let Some((recv, value)) = self.inner.take() else {
            unreachable!()
        };
        let mut recv = recv;
        match recv.poll(rt, alloc, cx) {
            Poll::Pending => {
                self.inner = Some((recv, value));
                Some(Poll::Pending)
            }
            Poll::Ready((receiver, answer)) => match answer {
                Ok(Some(message)) => {
                    let next = (self.func)(value, message);
                    self.inner = Some((receiver.into_recv(), next));
                    None
                }
                Ok(None) => Some(Poll::Ready(Folded {
                    receiver,
                    value,
                    result: Ok(()),
                })),
                Err(failed) => Some(Poll::Ready(Folded {
                    receiver,
                    value,
                    result: Err(failed),
                })),
            },
        }
    }
}

impl<T, U, S, F, C> TaskFuture<C> for FoldMessages<T, U, S, F>
where
    T: Drop,
    U: Unpark,
    S: Drop,
    F: FnMut(S, T) -> S + Drop,
    C: RemoteContext<U>,
{
    type Output = Folded<T, U, S>;

    ghost is_spent = { fold_spent };

    ghost can_poll = { FoldCanPoll F.FnMut };

    ghost gives = { FoldMessagesGives F.FnMut };

    ghost cancels = { λ f c d. d ≡ c };

    fn spent(&self) -> bool {
        match &self.inner {
            Some((recv, _)) => TaskFuture::<C>::spent(recv),
            None => true,
        }
    }

    fn poll<R: Host>(&mut self, rt: &R, alloc: Global, cx: &mut C) -> Poll<Folded<T, U, S>> {
        let mut left = TURNS;
        while left > 0 {
            left -= 1;
            if let Some(answer) = self.turn(rt, alloc, cx) {
                return answer;
            }
        }
        cx.wake_me();
        Poll::Pending
    }

    fn cancel(self, cx: &mut C) {
        let FoldMessages { inner, func: _ } = self;
        if let Some((recv, _)) = inner {
            recv.cancel(cx);
        }
    }
}
