// All items of an iterator and all messages of a channel, on a runtime that never waits.
use crate::chains::run;
use mono_channel::channel;
use mono_forms::{fold_messages, send_all};
use mono_rt::NoUnpark;

// The channel has places for all. A poll sends or receives at most 128, and wakes its own task if more are left.
#[test]
fn three_polls_send_300_and_three_receive_them(rt: HostRuntime) {
    let alloc = rt.alloc();
    let (sender, receiver) = channel::<u64, NoUnpark>(alloc, 512).expect(&rt, "memory");
    let (sent, turns) = run(&rt, alloc, send_all(rt, sender, 0..300));
    assert_eq!(rt; turns, (3, 0, 0));
    let mut sent = sent.expect(&rt, "a turn is left");
    sent.sender.close(&rt);
    assert!(rt; sent.result.is_ok());
    let sums = fold_messages(
        receiver,
        0,
        |sum: u64, number: u64| sum.wrapping_add(number),
    );
    let (summed, turns) = run(&rt, alloc, sums);
    assert_eq!(rt; turns, (3, 0, 0));
    let summed = summed.expect(&rt, "a turn is left");
    assert_eq!(rt; (summed.value, summed.result.is_ok()), (44850, true));
}
