// Threads without a runtime that wait at a channel.
ghost use Rattle.std.specs.Prelude.{◌<◌};

use mono_channel::{Closing, Receiver, SendError, Sender, channel};
use mono_inbox::NoUnpark;
use mono_model::Host;
use std::alloc::Global;
use std::process::Abort;
use std::thread;

// Sends the numbers below `count`, each once there is a place, and closes the sender. Returns how many it sent.
fn send_numbers<R: Host>(
    rt: &R,
    alloc: Global,
    mut sender: Sender<u64, NoUnpark>,
    count: u64,
) -> u64 {
    let mut sent = 0u64;
    for number in 0..count {
        if sender.blocking_send(rt, alloc, number).is_err() {
            break;
        }
        sent = sent.saturating_add(1);
    }
    sender.close(rt);
    sent
}

// Receives until the channel is closed. Returns how many numbers came, and how many of them were their own place.
fn receive_numbers<R: Host>(
    rt: &R,
    alloc: Global,
    mut receiver: Receiver<u64, NoUnpark>,
) -> (u64, u64) {
    let mut place = 0u64;
    let mut right = 0u64;
    for _ in rt.forever() {
        match receiver.blocking_recv(rt, alloc) {
            Ok(Some(number)) => {
                right = right.saturating_add(u64::from(number == place));
                place = place.saturating_add(1);
            }
            Ok(None) | Err(_) => break,
        }
    }
    receiver.close(rt);
    (place, right)
}

// Sends the numbers below `count` from one thread to another over a channel with this many places.
fn cross<R: Host + Abort + Sync>(
    rt: &R,
    alloc: Global,
    bound: usize,
    count: u64,
) -> (u64, (u64, u64))
    requires { 0 < bound }
{
    let (sender, receiver) = channel(alloc, bound).expect(rt, "memory");
    thread::join(
        rt,
        move || send_numbers(rt, alloc, sender, count),
        move || receive_numbers(rt, alloc, receiver),
    )
}

#[test]
fn numbers_cross_between_threads_that_park(rt: HostRuntime) {
    for bound in [1, 7] {
        assert_eq!(rt; cross(&rt, rt.alloc(), bound, 2000), (2000, (2000, 2000)));
    }
}

// One thread waits to receive, and the other drops the last sender. Returns whether the receiver found the end.
fn drop_last_sender<R: Host + Abort + Sync + Send + Copy + Drop>(rt: &R, alloc: Global) -> bool {
    let (mut sender, mut receiver) = channel::<u64, NoUnpark>(alloc, 1).expect(rt, "memory");
    let second = sender.try_clone(rt).expect(rt, "a count");
    let one = Closing::new(*rt, sender);
    let two = Closing::new(*rt, second);
    let ((), found) = thread::join(
        rt,
        move || {
            drop(one);
            thread::yield_now();
            drop(two);
        },
        move || matches!(receiver.blocking_recv(rt, alloc), Ok(None)),
    );
    found
}

#[test]
fn the_drop_of_the_last_sender_wakes_the_receiver(rt: HostRuntime) {
    for _ in 0..50 {
        assert!(rt; drop_last_sender(&rt, rt.alloc()));
    }
}

// One thread waits to send a second message, and the other drops the receiver. Returns whether the message came back.
fn drop_receiver<R: Host + Abort + Sync + Send + Copy + Drop>(rt: &R, alloc: Global) -> bool {
    let (mut sender, receiver) = channel::<u64, NoUnpark>(alloc, 1).expect(rt, "memory");
    assert!(rt; sender.try_send(rt, 10).is_ok());
    let guard = Closing::new(*rt, receiver);
    let ((), back) = thread::join(
        rt,
        move || {
            thread::yield_now();
            drop(guard);
        },
        move || matches!(
            sender.blocking_send(rt, alloc, 11),
            Err(SendError::Closed(11))
        ),
    );
    back
}

#[test]
fn the_drop_of_the_receiver_wakes_a_sender(rt: HostRuntime) {
    for _ in 0..50 {
        assert!(rt; drop_receiver(&rt, rt.alloc()));
    }
}
