// Futures that wait in a shared value, as main tasks of built runtimes. Each is served by the other half of its join.
use crate::forms::run;
use mono_actor::ActorError;
use mono_combine::Join2;
use mono_forms::FutureExt;
use mono_rt::{Host, LateError, Poll, SharedContext, TaskFuture};
use mono_serve::{Mailboxes, mail, receive_for};
use mono_sync::mpsc::{Channel, RecvAt, TrySendError};
use mono_sync::{Many, Only, acts};
use std::alloc::{AllocError, Global};
use std::process::Abort;

/// Channels under keys.
type Channels = Only<Many<Channel<u64>>>;

/// Returns the message, or 0 if none came or none was sent.
fn message_of(
    both: (
        Result<Option<u64>, AllocError>,
        Result<(), TrySendError<u64>>,
    ),
) -> u64 {
    match both {
        (Ok(Some(message)), Ok(())) => message,
        _ => 0,
    }
}

/// A message wakes the task that receives by the same key.
///
/// It catches a runtime that does not wake whom a part of a table owes a wake.
#[test]
fn a_message_by_key(rt: HostRuntime) {
    let alloc = rt.alloc();
    let mut part = Many::new(alloc);
    assert!(rt; matches!(part.make(alloc, Channel::new(alloc, 1)), Ok(0)));
    let recv: RecvAt<Channels, u64> = RecvAt::new(0);
    let task = Join2::new(recv, acts::try_send_at::<Channels, u64>(0, 20)).map(message_of);
    assert_eq!(rt; run(&rt, alloc, Only { part }, task), Ok(20));
}

/// Mailboxes.
type Mail = Only<Mailboxes<u64>>;

/// Sends 5 from the actor 0 to the actor 1. It answers whether the message was sent.
#[derive(Drop)]
struct Posts;

impl<C: SharedContext<Mail>> TaskFuture<C> for Posts {
    type Output = bool;

    fn spent(&self) -> bool {
        false
    }

    fn poll<R: Host>(&mut self, _rt: &R, _alloc: Global, cx: &mut C) -> Poll<bool> {
        Poll::Ready(mail::send::<Mail, u64, C>(cx, 0, 1, 5).is_ok())
    }

    fn cancel(self, _cx: &mut C) {}
}

/// The answer of a receive under a timeout.
type Heard = Result<Result<(u64, u64), ActorError>, LateError>;

/// Returns the message, 1000 if none came in time, and 2000 if the receive was refused.
fn code(answer: Heard) -> u64 {
    match answer {
        Ok(Ok((_, message))) => message,
        Ok(Err(_)) => 2000,
        Err(_) => 1000,
    }
}

/// Returns the code of the receive, or 3000 if no message was sent.
fn code_if_sent(both: (Heard, bool)) -> u64 {
    if both.1 { code(both.0) } else { 3000 }
}

/// Returns mailboxes of the actors 0 and 1.
fn two_actors<R: Abort>(rt: &R, alloc: Global) -> Mail {
    let mut part: Mailboxes<u64> = Mailboxes::new(alloc, 2, 8).expect(rt, "memory");
    assert!(rt; part.spawn(alloc).is_ok() & part.spawn(alloc).is_ok());
    Only { part }
}

/// A message wakes the task that receives it, before its time is over.
///
/// It catches a runtime that does not wake whom a mailbox owes a wake.
#[test]
fn a_message_wakes_its_receiver(rt: HostRuntime) {
    let mail = two_actors(&rt, rt.alloc());
    let task = Join2::new(receive_for::<Mail, u64>(1, 9000), Posts).map(code_if_sent);
    assert_eq!(rt; run(&rt, rt.alloc(), mail, task), Ok(5));
}

/// A receive of which no message comes ends with its time.
///
/// It catches a receive that waits on without a wake.
#[test]
fn a_receive_ends_with_its_time(rt: HostRuntime) {
    let mail = two_actors(&rt, rt.alloc());
    let task = receive_for::<Mail, u64>(1, 30).map(code);
    assert_eq!(rt; run(&rt, rt.alloc(), mail, task), Ok(1000));
}
