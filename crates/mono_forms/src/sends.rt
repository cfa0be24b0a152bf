// Items of an iterator that are sent one after the other.
ghost use Rattle.std.specs.Prelude.{◌≡◌, false};
ghost use Rattle.std.specs.declared.option.Option.TheVariants.{Some};
ghost use Rattle.mono_joinword.specs.Numbers.{bool_number};
ghost use Rattle.mono_forms.specs.Turns.{Leaves};
ghost use Rattle.mono_forms.specs.Sends.{SendsItems, is_sent, stage_spent, inner_spent, CanTake, InnerGives, SendAllGives};

use mono_blocking::RemoteContext;
use mono_channel::{IntoSend, SendError, Sender};
use mono_inbox::Unpark;
use mono_joinword::Outcome;
use mono_model::{Host, Poll};
use mono_task::TaskFuture;
use std::alloc::Global;

// The greatest number of turns in one poll, two for each item.
const TURNS: u64 = 256;

/// The output of `send_all`. As a task's output its number is 1 if all items were sent, and else 0.
#[derive(Drop)]
pub struct AllSent<T: Drop, U: Unpark, I> {
    /// The sender, after the items that it sent.
    pub sender: Sender<T, U>,
    /// The items that were not taken, none if all were sent.
    pub rest: I,
    /// Whether all items were sent, or why one was not. That item comes back.
    pub result: Result<(), SendError<T>>,
}

impl<T: Drop, U: Unpark, I> Outcome for AllSent<T, U, I> {
    ghost output_number = { λ output. bool_number (is_sent output.result) };

    fn number(&self) -> u64 {
        match &self.result {
            Ok(()) => 1,
            Err(_) => 0,
        }
    }
}

// What the future does.
#[derive(Drop)]
pub(crate) enum Stage<T: Drop, U: Unpark, R: Host + Drop> {
    // It takes the next item.
    Takes(Sender<T, U>),
    // It sends an item.
    Sends(IntoSend<T, U, R>),
}

/// A future that sends the items of an iterator, in order, over a sender that it owns (`send_all`). It waits while each
/// place is taken, and answers with the sender once all are sent, or once one is refused.
///
/// One poll sends at most 128 items; then it wakes its own task and returns `Pending`. A future that is given up drops its
/// sender, which leaves the line and is not closed: under a timeout, in a race or in a select, use `Sender::send`.
#[derive(Drop)]
pub struct SendAll<T: Drop, U: Unpark, I, R: Host + Drop> {
    pub(crate) inner: Option<(Stage<T, U, R>, I)>,
    pub(crate) rt: R,
}

/// Returns a future that sends the items of `items`, in order, and answers the sender. If it is given up, the sender leaves
/// the line by this handle.
///
/// The sender has sent exactly the items that the iterator gave, up to its end, or up to the item that comes back.
pub fn send_all<T: Drop, U: Unpark, I: Iterator<Item = T>, R: Host + Drop>(
    rt: R,
    sender: Sender<T, U>,
    items: I,
) -> SendAll<T, U, I, R>
    ensures { (x : _) → SendAllGives I.next_gives result x → SendsItems I.next_gives sender items x }
{
    SendAll {
        inner: Some((Stage::Takes(sender), items)),
        rt,
    }
}

impl<T: Drop, U: Unpark, I: Iterator<Item = T>, H: Host + Copy> SendAll<T, U, I, H> {
    // Makes one turn. Returns the poll's answer, or `None` if the poll continues.
    fn turn<C: RemoteContext<U>, R: Host>(
        &mut self,
        rt: &R,
        alloc: Global,
        cx: &mut C,
    ) -> Option<Poll<AllSent<T, U, I>>>
        requires unspent { inner_spent self.old.inner ≡ false }
        requires callable { CanTake I.can_next self.old.inner }
        ensures leaves { Leaves inner_spent (CanTake I.can_next) (InnerGives I.next_gives) self.old.inner result self.new.inner }
        ensures reached { C.reaches cx.old cx.new }
    {
        let Some((stage, items)) = self.inner.take() else {
            unreachable!()
        };
        match stage {
            Stage::Takes(sender) => self.take_next(sender, items),
            Stage::Sends(send) => self.go_on(rt, alloc, cx, send, items),
        }
    }

    // Takes the next item, or answers if there is none.
    fn take_next(&mut self, sender: Sender<T, U>, items: I) -> Option<Poll<AllSent<T, U, I>>>
        requires { I.can_next items }
        ensures { Leaves inner_spent (CanTake I.can_next) (InnerGives I.next_gives) (Some (Stage.Takes sender, items)) result self.new.inner }
    {
        let mut items = items;
        match items.next() {
            Some(item) => {
                let send = sender.into_send(self.rt, item);
                self.inner = Some((Stage::Sends(send), items));
                None
            }
            None => {
                self.inner = None;
                Some(Poll::Ready(AllSent {
                    sender,
                    rest: items,
                    result: Ok(()),
                }))
            }
        }
    }

    // Polls the send of an item, and answers if it is refused.
    fn go_on<C: RemoteContext<U>, R: Host>(
        &mut self,
        rt: &R,
        alloc: Global,
        cx: &mut C,
        send: IntoSend<T, U, H>,
        items: I,
    ) -> Option<Poll<AllSent<T, U, I>>>
        requires unspent { stage_spent (Stage.Sends send) ≡ false }
        requires callable { I.can_next items }
        ensures leaves { Leaves inner_spent (CanTake I.can_next) (InnerGives I.next_gives) (Some (Stage.Sends send, items)) result self.new.inner }
        ensures reached { C.reaches cx.old cx.new }
    {
        let mut send = send;
        match send.poll(rt, alloc, cx) {
            Poll::Pending => {
                self.inner = Some((Stage::Sends(send), items));
                Some(Poll::Pending)
            }
            Poll::Ready((sender, answer)) => match answer {
                Ok(()) => {
                    self.inner = Some((Stage::Takes(sender), items));
                    None
                }
                Err(error) => {
                    self.inner = None;
                    Some(Poll::Ready(AllSent {
                        sender,
                        rest: items,
                        result: Err(error),
                    }))
                }
            },
        }
    }
}

impl<T, U, I, H, C> TaskFuture<C> for SendAll<T, U, I, H>
where
    T: Drop,
    U: Unpark,
    I: Iterator<Item = T>,
    H: Host + Copy,
    C: RemoteContext<U>,
{
    type Output = AllSent<T, U, I>;

    ghost is_spent = { λ f. inner_spent f.inner };

    ghost can_poll = { λ f. CanTake I.can_next f.inner };

    ghost gives = { SendAllGives I.next_gives };

    ghost cancels = { λ f c d. d ≡ c };

    fn spent(&self) -> bool {
        match &self.inner {
            Some((Stage::Takes(_), _)) => false,
            Some((Stage::Sends(send), _)) => TaskFuture::<C>::spent(send),
            None => true,
        }
    }

    fn poll<R: Host>(&mut self, rt: &R, alloc: Global, cx: &mut C) -> Poll<AllSent<T, U, I>> {
        let mut left = TURNS;
        while left > 0 {
            left -= 1;
            if let Some(answer) = self.turn(rt, alloc, cx) {
                return answer;
            }
        }
        cx.wake_me();
        Poll::Pending
    }

    fn cancel(self, cx: &mut C) {
        let SendAll { inner, rt: _ } = self;
        if let Some((stage, _)) = inner {
            if let Stage::Sends(send) = stage {
                send.cancel(cx);
            }
        }
    }
}
