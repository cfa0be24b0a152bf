//! Two runtimes that talk: one sends numbers from its thread, and the other adds them up in this one.
ghost use Rattle.std.specs.Prelude.{◌≡◌, ◌%◌, ◌^◌, [], true, IfSome};
ghost use Rattle.std.specs.List.{sum};
ghost use Rattle.mono_channel.specs.Ends.{received_by, has_ended};
ghost use Rattle.example_threads.specs.Channels.{down_from, HasSent, HasSummed};

use mono_channel::laws::{alone_arrives, arrived_interleaves};
use mono_channel::{Receiver, Sender, TryRecvError, channel};
use mono_forms::{Folded, fold_messages, send_all};
use mono_rt::{Host, NoPool, SystemClock, ThreadDriver, UnparkHandle, start};
use std::alloc::Global;
use std::thread;

type Tx = Sender<u64, UnparkHandle>;

type Rx = Receiver<u64, UnparkHandle>;

type Summed = Folded<u64, UnparkHandle, u64>;

// Sends the numbers from `count` down to 1 on a runtime of its own, and closes the sender.
fn send<R: Host + Copy>(rt: R, alloc: Global, sender: Tx, count: u64) -> Option<Tx>
    ensures { IfSome result (HasSent count sender) }
{
    let task = send_all(rt, sender, (1..=count).rev());
    let driver = ThreadDriver::new(alloc, SystemClock::new(rt)).ok()?;
    let mut sent = start::<_, _, _, NoPool, R>(&rt, alloc, driver, task, u64::MAX).ok()?;
    sent.sender.close(&rt);
    sent.result.ok()?;
    Some(sent.sender)
}

// Receives until the channel is closed, on a runtime of its own, and adds up.
fn receive<R: Host + Copy>(rt: R, alloc: Global, receiver: Rx) -> Option<Summed>
    requires { received_by receiver ≡ [] }
    ensures { IfSome result (HasSummed receiver) }
{
    let task = fold_messages(receiver, 0, |sum: u64, x: u64| sum.wrapping_add(x));
    let driver = ThreadDriver::new(alloc, SystemClock::new(rt)).ok()?;
    start::<_, _, _, NoPool, R>(&rt, alloc, driver, task, u64::MAX).ok()
}

/// Returns the receiver of the numbers from `count` down to 1, with their sum modulo 2^64: it received exactly these numbers,
/// in order, each once, and the channel has ended. Returns `None` if not all were sent and received.
pub fn two_runtimes<R: Host + Copy + Send>(rt: R, alloc: Global, count: u64) -> Option<Summed>
    ensures received { IfSome result (λ done. received_by done.receiver ≡ down_from count) }
    ensures added { IfSome result (λ done. done.value ≡ sum (down_from count) % 2 ^ 64) }
    ensures ended { IfSome result (λ done. has_ended done.receiver ≡ true) }
{
    let (sender, receiver) = channel(alloc, 8).ok()?;
    let sends = move || send(rt, alloc, sender, count);
    let (sent, done) = thread::join(&rt, sends, move || receive(rt, alloc, receiver));
    let (sent, mut done) = (sent?, done?);
    done.receiver.settle(sent);
    arrived_interleaves::<u64>();
    alone_arrives::<u64>();
    match done.receiver.try_recv(&rt) {
        Err(TryRecvError::Disconnected) => Some(done),
        _ => None,
    }
}
