// The line of the senders that wait: a receive wakes the first, who keeps its turn or passes it on.
//
// The task 7 waits with the first sender, the task 8 with the second, who began later.
use crate::channels::calls::a_channel;
use crate::channels::gaps::{nothing, polled};
use crate::channels::wakes::{Tasks, fill, holds, two_tasks, woken};
use mono_channel::{Receiver, Sender};
use mono_inbox::{Inbox, NoUnpark};
use mono_model::{Host, Poll};
use std::alloc::Global;
use std::process::Abort;

// A full channel with two senders that wait, and a third that does not.
#[derive(Drop)]
struct Bench {
    first: Sender<u64, NoUnpark>,
    second: Sender<u64, NoUnpark>,
    third: Sender<u64, NoUnpark>,
    receiver: Receiver<u64, NoUnpark>,
    tasks: Tasks,
}

fn a_bench<R: Host + Abort>(rt: &R, alloc: Global) -> Bench {
    let tasks = two_tasks(rt, alloc);
    let (mut first, receiver) = a_channel(alloc).expect(rt, "memory");
    let mut second = first.try_clone(rt).expect(rt, "a count");
    let mut third = first.try_clone(rt).expect(rt, "a count");
    assert!(rt; fill(rt, &mut third));
    assert!(rt; holds(rt, &mut first, &tasks.seven, 12));
    assert!(rt; holds(rt, &mut second, &tasks.eight, 13));
    Bench {
        first,
        second,
        third,
        receiver,
        tasks,
    }
}

// Receives a message. Returns the sum of the tasks that this wakes.
fn wakes<R: Host + Abort>(rt: &R, alloc: Global, bench: &mut Bench) -> u64 {
    assert!(rt; bench.receiver.try_recv(rt).is_ok());
    woken(rt, alloc, &bench.tasks)
}

// Waits once more with the first sender.
fn first_waits<R: Host + Abort>(rt: &R, bench: &mut Bench) -> bool {
    holds(rt, &mut bench.first, &bench.tasks.seven, 12)
}

// Waits once more with the second sender.
fn second_waits<R: Host + Abort>(rt: &R, bench: &mut Bench) -> bool {
    holds(rt, &mut bench.second, &bench.tasks.eight, 13)
}

#[test]
fn the_first_that_waits_is_woken_first(rt: HostRuntime) {
    let alloc = rt.alloc();
    let mut bench = a_bench(&rt, alloc);
    assert!(rt; second_waits(&rt, &mut bench));
    assert!(rt; first_waits(&rt, &mut bench));
    assert_eq!(rt; wakes(&rt, alloc, &mut bench), 7);
    assert_eq!(rt; wakes(&rt, alloc, &mut bench), 8);
}

#[test]
fn one_that_is_woken_and_finds_no_place_is_first_again(rt: HostRuntime) {
    let alloc = rt.alloc();
    let mut bench = a_bench(&rt, alloc);
    assert_eq!(rt; wakes(&rt, alloc, &mut bench), 7);
    assert!(rt; bench.third.try_send(&rt, 14).is_ok());
    assert!(rt; first_waits(&rt, &mut bench));
    assert_eq!(rt; wakes(&rt, alloc, &mut bench), 7);
    assert_eq!(rt; wakes(&rt, alloc, &mut bench), 8);
}

#[test]
fn two_that_find_no_place_keep_their_order(rt: HostRuntime) {
    let alloc = rt.alloc();
    let mut bench = a_bench(&rt, alloc);
    assert_eq!(rt; wakes(&rt, alloc, &mut bench), 7);
    assert_eq!(rt; wakes(&rt, alloc, &mut bench), 8);
    assert!(rt; fill(&rt, &mut bench.third));
    assert!(rt; first_waits(&rt, &mut bench));
    assert!(rt; second_waits(&rt, &mut bench));
    assert_eq!(rt; wakes(&rt, alloc, &mut bench), 7);
    assert_eq!(rt; wakes(&rt, alloc, &mut bench), 8);
    assert!(rt; fill(&rt, &mut bench.third));
    assert!(rt; second_waits(&rt, &mut bench));
    assert!(rt; first_waits(&rt, &mut bench));
    assert_eq!(rt; wakes(&rt, alloc, &mut bench), 7);
    assert_eq!(rt; wakes(&rt, alloc, &mut bench), 8);
}

#[test]
fn one_that_gives_up_passes_its_turn_on(rt: HostRuntime) {
    let alloc = rt.alloc();
    let mut bench = a_bench(&rt, alloc);
    assert_eq!(rt; wakes(&rt, alloc, &mut bench), 7);
    bench.first.leave_line(&rt);
    assert_eq!(rt; woken(&rt, alloc, &bench.tasks), 8);
    bench.first.leave_line(&rt);
    assert_eq!(rt; woken(&rt, alloc, &bench.tasks), 0);
}

#[test]
fn one_that_closes_passes_its_turn_on(rt: HostRuntime) {
    let alloc = rt.alloc();
    let mut bench = a_bench(&rt, alloc);
    assert_eq!(rt; wakes(&rt, alloc, &mut bench), 7);
    bench.first.close(&rt);
    assert_eq!(rt; woken(&rt, alloc, &bench.tasks), 8);
}

#[test]
fn one_that_leaves_before_its_turn_wakes_nobody(rt: HostRuntime) {
    let alloc = rt.alloc();
    let mut bench = a_bench(&rt, alloc);
    bench.first.leave_line(&rt);
    assert_eq!(rt; woken(&rt, alloc, &bench.tasks), 0);
    assert_eq!(rt; wakes(&rt, alloc, &mut bench), 8);
    assert!(rt; bench.third.try_send(&rt, 14).is_ok());
    assert!(rt; first_waits(&rt, &mut bench));
    assert!(rt; second_waits(&rt, &mut bench));
    assert_eq!(rt; wakes(&rt, alloc, &mut bench), 8);
}

#[test]
fn one_that_sends_leaves_the_line(rt: HostRuntime) {
    let alloc = rt.alloc();
    let mut bench = a_bench(&rt, alloc);
    assert_eq!(rt; wakes(&rt, alloc, &mut bench), 7);
    assert!(rt; bench.second.try_send(&rt, 13).is_ok());
    assert!(rt; first_waits(&rt, &mut bench));
    assert_eq!(rt; wakes(&rt, alloc, &mut bench), 7);
    assert!(rt; bench.first.try_send(&rt, 12).is_ok());
    bench.first.leave_line(&rt);
    assert_eq!(rt; woken(&rt, alloc, &bench.tasks), 0);
    assert_eq!(rt; wakes(&rt, alloc, &mut bench), 0);
}

// Polls a send of 14 with the first sender, which waits since each place is taken, and gives it up after a receive.
fn gives_up_by_a_future<R: Host + Abort + Copy + Drop>(rt: R, alloc: Global, bench: &mut Bench) {
    let inbox = Inbox::new(alloc, 8, NoUnpark).expect(&rt, "memory");
    let mut cx = nothing(rt, alloc, &inbox);
    let mut send = bench.first.send(rt, 14);
    assert!(rt; matches!(polled(&rt, alloc, &mut cx, &mut send), Poll::Pending));
    assert!(rt; bench.receiver.try_recv(&rt).is_ok());
}

#[test]
fn a_future_that_is_dropped_passes_its_turn_on(rt: HostRuntime) {
    let alloc = rt.alloc();
    let mut bench = a_bench(&rt, alloc);
    gives_up_by_a_future(rt, alloc, &mut bench);
    assert_eq!(rt; woken(&rt, alloc, &bench.tasks), 8);
}

#[test]
fn a_future_that_is_dropped_with_its_sender_passes_its_turn_on(rt: HostRuntime) {
    let alloc = rt.alloc();
    let Bench {
        first,
        mut receiver,
        tasks,
        second: _second,
        third: _third,
    } = a_bench(&rt, alloc);
    let inbox = Inbox::new(alloc, 8, NoUnpark).expect(&rt, "memory");
    let mut cx = nothing(rt, alloc, &inbox);
    let mut send = first.into_send(rt, 14);
    assert!(rt; matches!(polled(&rt, alloc, &mut cx, &mut send), Poll::Pending));
    assert!(rt; receiver.try_recv(&rt).is_ok());
    drop(send);
    assert_eq!(rt; woken(&rt, alloc, &tasks), 8);
}
