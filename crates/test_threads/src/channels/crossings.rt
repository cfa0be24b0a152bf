// Numbers that cross from thread to thread.
use mono_channel::{Receiver, Sender, TryRecvError, channel};
use mono_inbox::NoUnpark;
use mono_model::Host;
use std::alloc::Global;
use std::process::Abort;
use std::thread;

// Sends the numbers below `count`, and closes the sender.
fn send_numbers<R: Host>(rt: &R, mut sender: Sender<u64, NoUnpark>, count: u64) {
    let mut next = 0;
    for _ in rt.forever() {
        if next >= count {
            break;
        }
        match sender.try_send(rt, next) {
            Ok(()) => next += 1,
            Err(_) => thread::yield_now(),
        }
    }
    sender.close(rt);
}

// Receives until the channel is closed. Returns how many numbers came, and how many of them were their own place.
fn receive_numbers<R: Host>(rt: &R, mut receiver: Receiver<u64, NoUnpark>) -> (u64, u64) {
    let mut place = 0u64;
    let mut right = 0u64;
    for _ in rt.forever() {
        match receiver.try_recv(rt) {
            Ok(number) => {
                right = right.saturating_add(u64::from(number == place));
                place = place.saturating_add(1);
            }
            Err(TryRecvError::Empty) => thread::yield_now(),
            Err(TryRecvError::Disconnected) => break,
        }
    }
    (place, right)
}

// Sends the numbers below `count` from one thread to another.
fn cross<R: Host + Abort + Sync>(rt: &R, alloc: Global, count: u64) -> (u64, u64) {
    let (sender, receiver) = channel(alloc, 64).expect(rt, "memory");
    let ((), came) = thread::join(
        rt,
        move || send_numbers(rt, sender, count),
        move || receive_numbers(rt, receiver),
    );
    came
}

#[test]
fn a_hundred_thousand_numbers_cross(rt: HostRuntime) {
    assert_eq!(rt; cross(&rt, rt.alloc(), 100000), (100000, 100000));
}
