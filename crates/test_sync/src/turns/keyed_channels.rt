// Calls of channels by key, in turns of tasks. Each test has channels with the keys 0 and 1, and none with the key 9. It calls
// those with the keys 1 and 9, and finds the one with the key 0 as it was.
//
// A test is one condition over its calls, in their order: a branch at each would cost its proof more than the calls.
use crate::turns::Turn;
use crate::turns::by_key::{On, Parts, turn_on};
use mono_model::Host;
use mono_sync::mpsc::{self, Channel, SendAt, SendError, TrySendError};
use mono_task::TaskFuture;
use std::alloc::Global;
use std::process::Abort;

// Two channels of one place.
fn channels<R: Abort>(rt: &R, alloc: Global) -> On<Channel<u64>> {
    turn_on(rt, alloc, Channel::new(alloc, 1), Channel::new(alloc, 1))
}

// Returns whether the channel with this key has this many messages.
fn has(turn: &On<Channel<u64>>, key: u64, messages: usize) -> bool {
    match turn.shared.part.get(key) {
        Some(channel) => channel.len() == messages,
        None => false,
    }
}

fn sends(turn: &mut On<Channel<u64>>, key: u64, message: u64) -> bool {
    mpsc::try_send_at::<Parts<Channel<u64>>, u64, On<Channel<u64>>>(turn, key, message).is_ok()
}

fn is_shut(turn: &mut On<Channel<u64>>, key: u64) -> bool {
    match mpsc::try_send_at::<Parts<Channel<u64>>, u64, On<Channel<u64>>>(turn, key, 20) {
        Err(TrySendError::Closed(back)) => back == 20,
        _ => false,
    }
}

fn receives(turn: &mut On<Channel<u64>>, key: u64, message: u64) -> bool {
    match mpsc::try_recv_at::<Parts<Channel<u64>>, u64, On<Channel<u64>>>(turn, key) {
        Ok(had) => had == message,
        Err(_) => false,
    }
}

fn closes(turn: &mut On<Channel<u64>>, key: u64) -> bool {
    mpsc::close_at::<Parts<Channel<u64>>, u64, On<Channel<u64>>>(turn, key);
    true
}

/// A future that receives.
type Receive = mpsc::RecvAt<Parts<Channel<u64>>, u64>;

/// A future that sends.
type Post = SendAt<Parts<Channel<u64>>, u64>;

// Polls a receiving future in a turn of this task. Returns its message, 0 if the channel was closed, or none if it waits.
fn came<R: Host>(
    rt: &R,
    alloc: Global,
    turn: &mut On<Channel<u64>>,
    task: u64,
    recv: &mut Receive,
) -> Option<u64> {
    turn.task = task;
    match turn.answer(rt, alloc, recv) {
        Some(Ok(Some(message))) => Some(message),
        Some(Ok(None)) => Some(0),
        _ => None,
    }
}

// Polls a sending future in a turn of this task. Returns 0 if it has sent, the message if it came back, or none if it waits.
fn went<R: Host>(
    rt: &R,
    alloc: Global,
    turn: &mut On<Channel<u64>>,
    task: u64,
    send: &mut Post,
) -> Option<u64> {
    turn.task = task;
    match turn.answer(rt, alloc, send) {
        Some(Ok(())) => Some(0),
        Some(Err(SendError::Closed(message))) => Some(message),
        _ => None,
    }
}

// Gives a receiving future up in a turn of this task.
fn stops(turn: &mut On<Channel<u64>>, task: u64, recv: Receive) -> bool {
    turn.task = task;
    recv.cancel(turn);
    true
}

/// A message serves a future that receives by the same key alone.
///
/// It catches a future or a call that answers `Memory` at once, and a table that owes no wake.
#[test]
fn receives_by_key(rt: HostRuntime) {
    let alloc = rt.alloc();
    let mut turn = channels(&rt, alloc);
    let mut recv: Receive = Receive::new(1);
    assert!(rt;
        came(&rt, alloc, &mut turn, 7, &mut recv).is_none()
            & sends(&mut turn, 0, 10)
            & turn.wakes(None)
            & sends(&mut turn, 1, 20)
            & turn.wakes(Some(7))
            & (came(&rt, alloc, &mut turn, 7, &mut recv) == Some(20))
            & has(&turn, 0, 1)
            & has(&turn, 1, 0)
    );
}

/// A free place serves a future that sends by the same key alone.
///
/// It catches a future or a call that answers `Memory` at once, and a table that owes no wake.
#[test]
fn sends_by_key(rt: HostRuntime) {
    let alloc = rt.alloc();
    let mut turn = channels(&rt, alloc);
    let mut send: Post = Post::new(1, 22);
    assert!(rt;
        sends(&mut turn, 0, 10)
            & sends(&mut turn, 1, 20)
            & went(&rt, alloc, &mut turn, 7, &mut send).is_none()
            & receives(&mut turn, 0, 10)
            & turn.wakes(None)
            & receives(&mut turn, 1, 20)
            & turn.wakes(Some(7))
            & (went(&rt, alloc, &mut turn, 7, &mut send) == Some(0))
            & has(&turn, 0, 0)
            & has(&turn, 1, 1)
    );
}

/// A future that is given up passes its message on, by its key.
///
/// It catches a table that gives up at another key.
#[test]
fn given_up_by_key(rt: HostRuntime) {
    let alloc = rt.alloc();
    let mut turn = channels(&rt, alloc);
    let mut first: Receive = Receive::new(1);
    let mut second: Receive = Receive::new(1);
    assert!(rt;
        came(&rt, alloc, &mut turn, 7, &mut first).is_none()
            & came(&rt, alloc, &mut turn, 8, &mut second).is_none()
            & sends(&mut turn, 1, 20)
            & turn.wakes(Some(7))
            & stops(&mut turn, 7, first)
            & turn.wakes(Some(8))
            & (came(&rt, alloc, &mut turn, 8, &mut second) == Some(20))
    );
}

/// A closed channel gives its future the message back. A key without a channel is as one that was closed.
///
/// It catches a close that forgets those who send, and a call that makes a part for its key.
#[test]
fn closes_by_key(rt: HostRuntime) {
    let alloc = rt.alloc();
    let mut turn = channels(&rt, alloc);
    let mut send: Post = Post::new(1, 22);
    let mut recv: Receive = Receive::new(9);
    assert!(rt;
        sends(&mut turn, 1, 20)
            & went(&rt, alloc, &mut turn, 7, &mut send).is_none()
            & closes(&mut turn, 9)
            & turn.wakes(None)
            & closes(&mut turn, 1)
            & turn.wakes(Some(7))
            & (went(&rt, alloc, &mut turn, 7, &mut send) == Some(22))
            & is_shut(&mut turn, 1)
            & is_shut(&mut turn, 9)
            & (came(&rt, alloc, &mut turn, 7, &mut recv) == Some(0))
            & sends(&mut turn, 0, 10)
    );
}
