// Whom each call wakes: the inbox of the waiting tasks lists them.
use crate::channels::calls::a_channel;
use mono_channel::{Receiver, SendError, Sender};
use mono_inbox::{Inbox, NoUnpark, RemoteWaker};
use mono_model::{Host, Poll};
use std::alloc::Global;
use std::process::Abort;

// An inbox with wakers of the tasks 7 and 8.
#[derive(Drop)]
pub(crate) struct Tasks {
    pub(crate) inbox: Inbox<NoUnpark>,
    pub(crate) seven: RemoteWaker<NoUnpark>,
    pub(crate) eight: RemoteWaker<NoUnpark>,
}

// Such an inbox. A call that found no memory is made once more.
pub(crate) fn two_tasks<R: Host + Abort>(rt: &R, alloc: Global) -> Tasks {
    let inbox = match Inbox::new(alloc, 8, NoUnpark) {
        Ok(inbox) => inbox,
        Err(_) => Inbox::new(alloc, 8, NoUnpark).expect(rt, "memory"),
    };
    let seven = waker(rt, alloc, &inbox, 7);
    let eight = waker(rt, alloc, &inbox, 8);
    Tasks {
        inbox,
        seven,
        eight,
    }
}

// A waker of a task, asked for once more if there was no memory.
fn waker<R: Host + Abort>(
    rt: &R,
    alloc: Global,
    inbox: &Inbox<NoUnpark>,
    task: u64,
) -> RemoteWaker<NoUnpark> {
    match inbox.waker(rt, alloc, task) {
        Ok(waker) => waker,
        Err(_) => inbox.waker(rt, alloc, task).expect(rt, "memory"),
    }
}

// The sum of the tasks that were woken since the last drain.
pub(crate) fn woken<R: Host + Abort>(rt: &R, alloc: Global, tasks: &Tasks) -> u64 {
    let mut list = Vec::new(alloc);
    if tasks.inbox.drain(rt, alloc, &mut list).is_err() {
        tasks.inbox.drain(rt, alloc, &mut list).expect(rt, "memory");
    }
    let mut sum = 0u64;
    for task in list {
        sum = sum.wrapping_add(task);
    }
    sum
}

// The receiver waits.
fn waits<R: Host>(
    rt: &R,
    receiver: &mut Receiver<u64, NoUnpark>,
    waker: &RemoteWaker<NoUnpark>,
) -> bool {
    matches!(receiver.poll_recv(rt, waker), Poll::Pending)
}

// The sender waits with this number. A wait that found no memory is begun once more.
pub(crate) fn holds<R: Host>(
    rt: &R,
    sender: &mut Sender<u64, NoUnpark>,
    waker: &RemoteWaker<NoUnpark>,
    number: u64,
) -> bool {
    let mut message = Some(number);
    match sender.poll_send(rt, waker, &mut message) {
        Poll::Pending => message == Some(number),
        Poll::Ready(Err(SendError::Memory(back))) => {
            let mut again = Some(back);
            let pends = matches!(sender.poll_send(rt, waker, &mut again), Poll::Pending);
            pends && again == Some(number)
        }
        Poll::Ready(_) => false,
    }
}

// Fills both places.
pub(crate) fn fill<R: Host>(rt: &R, sender: &mut Sender<u64, NoUnpark>) -> bool {
    sender.try_send(rt, 10).is_ok() && sender.try_send(rt, 11).is_ok()
}

#[test]
fn a_message_wakes_the_receiver_that_waits(rt: HostRuntime) {
    let alloc = rt.alloc();
    let tasks = two_tasks(&rt, alloc);
    let (mut sender, mut receiver) = a_channel(alloc).expect(&rt, "memory");
    assert!(rt; waits(&rt, &mut receiver, &tasks.seven));
    assert_eq!(rt; woken(&rt, alloc, &tasks), 0);
    assert!(rt; sender.try_send(&rt, 10).is_ok());
    assert_eq!(rt; woken(&rt, alloc, &tasks), 7);
    assert!(rt; sender.try_send(&rt, 11).is_ok());
    assert_eq!(rt; woken(&rt, alloc, &tasks), 0);
    assert!(rt;
        matches!(
            receiver.poll_recv(&rt, &tasks.seven),
            Poll::Ready(Ok(Some(10)))
        )
    );
    assert!(rt;
        matches!(
            receiver.poll_recv(&rt, &tasks.seven),
            Poll::Ready(Ok(Some(11)))
        )
    );
    assert!(rt; waits(&rt, &mut receiver, &tasks.eight));
    let mut message = Some(12);
    assert!(rt;
        matches!(
            sender.poll_send(&rt, &tasks.seven, &mut message),
            Poll::Ready(Ok(()))
        )
    );
    assert_eq!(rt; woken(&rt, alloc, &tasks), 8);
}

#[test]
fn each_receive_wakes_one_sender_that_waits(rt: HostRuntime) {
    let alloc = rt.alloc();
    let tasks = two_tasks(&rt, alloc);
    let (mut sender, mut receiver) = a_channel(alloc).expect(&rt, "memory");
    let mut second = sender.try_clone(&rt).expect(&rt, "a count");
    assert!(rt; fill(&rt, &mut sender));
    assert!(rt; holds(&rt, &mut sender, &tasks.seven, 12));
    assert!(rt; holds(&rt, &mut second, &tasks.eight, 13));
    assert!(rt; holds(&rt, &mut sender, &tasks.seven, 12));
    assert_eq!(rt; woken(&rt, alloc, &tasks), 0);
    assert!(rt; receiver.try_recv(&rt).is_ok());
    assert_eq!(rt; woken(&rt, alloc, &tasks), 7);
    assert!(rt; sender.try_send(&rt, 12).is_ok());
    assert!(rt; holds(&rt, &mut second, &tasks.eight, 13));
    assert!(rt; receiver.try_recv(&rt).is_ok());
    assert_eq!(rt; woken(&rt, alloc, &tasks), 8);
    assert!(rt; receiver.try_recv(&rt).is_ok());
    assert_eq!(rt; woken(&rt, alloc, &tasks), 0);
}

// The tasks that were woken since the last drain, in order: the first one is the tens.
fn woken_in_order<R: Host + Abort>(rt: &R, alloc: Global, tasks: &Tasks) -> u64 {
    let mut list = Vec::new(alloc);
    if tasks.inbox.drain(rt, alloc, &mut list).is_err() {
        tasks.inbox.drain(rt, alloc, &mut list).expect(rt, "memory");
    }
    let mut digits = 0u64;
    for task in list {
        digits = digits.wrapping_mul(10).wrapping_add(task);
    }
    digits
}

#[test]
fn a_close_wakes_the_senders_that_wait(rt: HostRuntime) {
    let alloc = rt.alloc();
    let tasks = two_tasks(&rt, alloc);
    let (mut sender, mut receiver) = a_channel(alloc).expect(&rt, "memory");
    let mut second = sender.try_clone(&rt).expect(&rt, "a count");
    assert!(rt; fill(&rt, &mut sender));
    assert!(rt; holds(&rt, &mut sender, &tasks.seven, 12));
    assert!(rt; holds(&rt, &mut second, &tasks.eight, 13));
    receiver.close(&rt);
    assert_eq!(rt; woken_in_order(&rt, alloc, &tasks), 78);
    let mut message = Some(12);
    let answer = sender.poll_send(&rt, &tasks.seven, &mut message);
    assert!(rt; matches!(answer, Poll::Ready(Err(SendError::Closed(12)))));
    assert!(rt;
        matches!(
            receiver.poll_recv(&rt, &tasks.seven),
            Poll::Ready(Ok(Some(10)))
        )
    );
    assert!(rt;
        matches!(
            receiver.poll_recv(&rt, &tasks.seven),
            Poll::Ready(Ok(Some(11)))
        )
    );
    assert!(rt; matches!(receiver.poll_recv(&rt, &tasks.seven), Poll::Ready(Ok(None))));
}

#[test]
fn the_close_of_the_last_sender_wakes_the_receiver(rt: HostRuntime) {
    let alloc = rt.alloc();
    let tasks = two_tasks(&rt, alloc);
    let (mut sender, mut receiver) = a_channel(alloc).expect(&rt, "memory");
    let mut second = sender.try_clone(&rt).expect(&rt, "a count");
    assert!(rt; waits(&rt, &mut receiver, &tasks.seven));
    sender.close(&rt);
    assert_eq!(rt; woken(&rt, alloc, &tasks), 0);
    second.close(&rt);
    assert_eq!(rt; woken(&rt, alloc, &tasks), 7);
    assert!(rt; matches!(receiver.poll_recv(&rt, &tasks.seven), Poll::Ready(Ok(None))));
}
