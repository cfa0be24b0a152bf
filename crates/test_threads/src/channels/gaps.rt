// Polls between whose two looks another end acts.
//
// A poll looks at the channel, asks for the task's waker, and looks again before it waits. The context of these tests
// lets another end act when it is asked for the waker. Nobody was registered then, so the act wakes nobody: only the second
// look can see it.
ghost use Rattle.std.specs.Prelude.{◌≡◌, true, false, refl};
ghost use Rattle.std.proofs.Common.{◌∙◌};
ghost use Rattle.mono_model.specs.Tasks.{no_tasks};

use crate::channels::calls::a_channel;
use mono_blocking::RemoteContext;
use mono_channel::{Receiver, SendError, Sender};
use mono_inbox::{Inbox, NoUnpark, RemoteWaker};
use mono_model::{Host, Poll};
use mono_task::{Context, TaskError, TaskFuture, Woke};
use std::alloc::{AllocError, Global};
use std::mem;
use std::process::Abort;
use std::sync::Mutex;

/// What another end does between the two looks.
#[derive(Drop)]
enum Act {
    Nothing,
    SenderCloses(Sender<u64, NoUnpark>),
    SenderSends(Sender<u64, NoUnpark>, u64),
    ReceiverCloses(Receiver<u64, NoUnpark>),
    ReceiverTakes(Receiver<u64, NoUnpark>),
}

// Acts.
fn perform<R: Host>(rt: &R, act: Act) {
    match act {
        Act::Nothing => {}
        Act::SenderCloses(mut sender) => sender.close(rt),
        Act::SenderSends(mut sender, number) => {
            let _ = sender.try_send(rt, number);
        }
        Act::ReceiverCloses(mut receiver) => receiver.close(rt),
        Act::ReceiverTakes(mut receiver) => {
            let _ = receiver.try_recv(rt);
        }
    }
}

/// The context of one task, in which another end acts once when the task's waker is asked for.
#[derive(Drop)]
pub(crate) struct Gap<R: Host + Drop> {
    rt: R,
    act: Mutex<Act>,
    waker: RemoteWaker<NoUnpark>,
    has_handed_out: bool,
    is_out_of_memory: bool,
}

impl<R: Host + Drop> Context for Gap<R> {
    ghost number = { λ c. c.waker };

    ghost nanos = { λ c. 0 };

    ghost is_out_of_memory = { λ c. c.is_out_of_memory };

    ghost work = { λ c. no_tasks 0 };

    ghost reaches = { λ c d. (d.waker ≡ c.waker) × (c.is_out_of_memory ≡ true → d.is_out_of_memory ≡ true) };

    ghost wakes = { λ c t r d. d ≡ c };

    fn me(&self) -> u64 {
        self.waker.task()
    }

    fn now(&self) -> u128 {
        0
    }

    fn wake(&mut self, _task: u64) -> Result<Woke, TaskError> {
        Err(TaskError::NoTask)
    }

    ghost reaches_itself = { λ c. (refl, λ h. h) };

    ghost reaches_on = { λ a b c p q. (q.0 ∙ p.0, λ h. q.1 (p.1 h)) };

    ghost same_number = { λ a b r. r.0 };

    ghost same_nanos = { λ a b r. refl };

    ghost stays_out_of_memory = { λ a b r. r.1 };
}

impl<R: Host + Drop> RemoteContext<NoUnpark> for Gap<R> {
    ghost has_handed_out = { λ c. c.has_handed_out };

    ghost handed_out = { λ c. record c { has_handed_out = true } };

    fn remote_waker(&mut self) -> Result<RemoteWaker<NoUnpark>, AllocError> {
        let act = mem::replace(&mut *self.act.lock(&self.rt), Act::Nothing);
        perform(&self.rt, act);
        match self.waker.clone() {
            Ok(waker) => {
                self.has_handed_out = true;
                Ok(waker)
            }
            Err(failed) => {
                self.is_out_of_memory = true;
                Err(failed)
            }
        }
    }

    ghost hands_out = { λ c. refl };
}

// The context of the task 7 of this inbox.
fn with_gap<R: Host + Abort + Copy + Drop>(
    rt: R,
    alloc: Global,
    inbox: &Inbox<NoUnpark>,
    act: Act,
) -> Gap<R> {
    Gap {
        rt,
        act: Mutex::new(act),
        waker: inbox.waker(&rt, alloc, 7).expect(&rt, "memory"),
        has_handed_out: false,
        is_out_of_memory: false,
    }
}

// The context of the task 7 of this inbox, in which nothing acts.
pub(crate) fn nothing<R: Host + Abort + Copy + Drop>(
    rt: R,
    alloc: Global,
    inbox: &Inbox<NoUnpark>,
) -> Gap<R> {
    with_gap(rt, alloc, inbox, Act::Nothing)
}

// How a receive with such a gap ended: None if it waits, and else its message.
fn received<R: Host + Abort + Copy + Drop>(
    rt: R,
    alloc: Global,
    mut receiver: Receiver<u64, NoUnpark>,
    act: Act,
) -> Option<Option<u64>> {
    let inbox = Inbox::new(alloc, 8, NoUnpark).expect(&rt, "memory");
    let mut cx = with_gap(rt, alloc, &inbox, act);
    let mut recv = receiver.recv();
    match polled(&rt, alloc, &mut cx, &mut recv) {
        Poll::Pending => None,
        Poll::Ready(answer) => Some(answer.expect(&rt, "memory")),
    }
}

// How a send of 12 with such a gap ended: None if it waits, and else whether it was sent. A refused message comes back.
fn sent<R: Host + Abort + Copy + Drop>(
    rt: R,
    alloc: Global,
    mut sender: Sender<u64, NoUnpark>,
    act: Act,
) -> Option<bool> {
    let inbox = Inbox::new(alloc, 8, NoUnpark).expect(&rt, "memory");
    let mut cx = with_gap(rt, alloc, &inbox, act);
    let mut send = sender.send(rt, 12);
    match polled(&rt, alloc, &mut cx, &mut send) {
        Poll::Pending => None,
        Poll::Ready(Ok(())) => Some(true),
        Poll::Ready(Err(refused)) => closed(rt, refused),
    }
}

// Returns false if the channel was closed and the message 12 came back, and None if an allocation failed.
fn closed<R: Host + Abort + Copy + Drop>(rt: R, refused: SendError<u64>) -> Option<bool> {
    match refused {
        SendError::Closed(back) => {
            assert!(rt; back == 12);
            Some(false)
        }
        SendError::Memory(_message) => None,
    }
}

// Polls a future once.
pub(crate) fn polled<F: TaskFuture<Gap<R>>, R: Host + Abort + Drop>(
    rt: &R,
    alloc: Global,
    cx: &mut Gap<R>,
    future: &mut F,
) -> Poll<F::Output>
    requires unspent { F.is_spent future.old ≡ false }
    requires callable { F.can_poll future.old }
{
    future.poll(rt, alloc, cx)
}

#[test]
fn a_receive_sees_a_close_between_its_looks(rt: HostRuntime) {
    let (sender, receiver) = a_channel(rt.alloc()).expect(&rt, "memory");
    let answer = received(rt, rt.alloc(), receiver, Act::SenderCloses(sender));
    assert_eq!(rt; answer, Some(None));
}

#[test]
fn a_receive_sees_a_message_between_its_looks(rt: HostRuntime) {
    let (sender, receiver) = a_channel(rt.alloc()).expect(&rt, "memory");
    let answer = received(rt, rt.alloc(), receiver, Act::SenderSends(sender, 10));
    assert_eq!(rt; answer, Some(Some(10)));
}

#[test]
fn a_receive_waits_if_nothing_came_between_its_looks(rt: HostRuntime) {
    let (_sender, receiver) = a_channel(rt.alloc()).expect(&rt, "memory");
    assert_eq!(rt; received(rt, rt.alloc(), receiver, Act::Nothing), None);
}

// The ends of a channel whose two places are taken.
fn full<R: Host + Abort>(
    rt: &R,
    alloc: Global,
) -> (Sender<u64, NoUnpark>, Receiver<u64, NoUnpark>) {
    let (mut sender, receiver) = a_channel(alloc).expect(rt, "memory");
    let is_full = sender.try_send(rt, 10).is_ok() && sender.try_send(rt, 11).is_ok();
    assert!(rt; is_full);
    (sender, receiver)
}

#[test]
fn a_send_sees_a_close_between_its_looks(rt: HostRuntime) {
    let (sender, receiver) = full(&rt, rt.alloc());
    let answer = sent(rt, rt.alloc(), sender, Act::ReceiverCloses(receiver));
    assert_eq!(rt; answer, Some(false));
}

#[test]
fn a_send_sees_a_free_place_between_its_looks(rt: HostRuntime) {
    let (sender, receiver) = full(&rt, rt.alloc());
    let answer = sent(rt, rt.alloc(), sender, Act::ReceiverTakes(receiver));
    assert_eq!(rt; answer, Some(true));
}

#[test]
fn a_send_waits_if_no_place_was_freed_between_its_looks(rt: HostRuntime) {
    let (sender, _receiver) = full(&rt, rt.alloc());
    assert_eq!(rt; sent(rt, rt.alloc(), sender, Act::Nothing), None);
}
