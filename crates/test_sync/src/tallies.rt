// A value next to a channel: which messages it has noted after each call.
//
// Its rule promises nothing, so no clause says what is noted. The tests catch a call that notes too much or too little.
ghost use Rattle.std.specs.Prelude.{⊤};

use crate::turns::Turn;
use mono_sync::mpsc::{Receiving, Sending};
use mono_sync::tallies::{Recv, Send, Tallied, Tally};
use mono_sync::{Only, acts};
use mono_task::TaskFuture;
use std::alloc::Global;

/// The noted messages: digits in their order if the base is 10, and their sum if it is 1.
#[derive(Drop)]
struct Notes {
    base: u64,
    sent: u64,
    came: u64,
}

/// The rule promises nothing.
impl Tally<u64> for Notes {
    ghost rule = { λ notes queue. ⊤ };

    fn sent(&mut self, message: &u64) {
        self.sent = self.sent.saturating_mul(self.base).saturating_add(*message);
    }

    fn received(&mut self, message: &u64) {
        self.came = self.came.saturating_mul(self.base).saturating_add(*message);
    }
}

type Shared = Only<Tallied<u64, Notes>>;

type Post = Send<Shared, u64, Notes>;

type Receive = Recv<Shared, u64, Notes>;

// A turn of a task on a channel of this many places, next to a value that has noted nothing.
fn turn_on(alloc: Global, bound: usize, base: u64) -> Turn<Shared> {
    let [task, sent, came] = [7, 0, 0];
    let tally = Notes { base, sent, came };
    let part = Tallied::new(alloc, bound, tally);
    let shared = Only { part };
    Turn { task, shared }
}

// Returns whether exactly these messages were noted, as digits.
fn noted(turn: &Turn<Shared>, sent: u64, came: u64) -> bool {
    let notes = &turn.shared.part.tally;
    (notes.sent == sent) & (notes.came == came)
}

// A message that waits for a place is noted once it is queued.
#[test]
fn messages_in_order(rt: HostRuntime) {
    let alloc = rt.alloc();
    let mut turn = turn_on(alloc, 2, 10);
    let mut late = Post::new(3);
    let mut empty = Receive::new();
    assert!(rt;
        (turn.makes(&rt, alloc, Post::new(1)) & noted(&turn, 1, 0))
            & (turn.makes(&rt, alloc, Post::new(2)) & noted(&turn, 12, 0))
            & (turn.waits(&rt, alloc, 7, &mut late) & noted(&turn, 12, 0))
            & (turn.makes(&rt, alloc, Receive::new()) & noted(&turn, 12, 1))
            & (turn.wakes(Some(7)) & !turn.waits(&rt, alloc, 7, &mut late) & noted(&turn, 123, 1))
            & (turn.makes(&rt, alloc, Receive::new()) & noted(&turn, 123, 12))
            & (turn.makes(&rt, alloc, Receive::new()) & noted(&turn, 123, 123))
            & (turn.waits(&rt, alloc, 7, &mut empty) & noted(&turn, 123, 123))
    );
}

// A message that comes back is not noted. The queued one is noted as received after the close, and the end is not.
#[test]
fn closed(rt: HostRuntime) {
    let alloc = rt.alloc();
    let mut turn = turn_on(alloc, 1, 10);
    let mut late = Post::new(2);
    assert!(rt;
        turn.makes(&rt, alloc, Post::new(1))
            & turn.waits(&rt, alloc, 7, &mut late)
            & turn.makes(&rt, alloc, acts::close_tallied::<Shared, u64, Notes>())
            & turn.wakes(Some(7))
            & !turn.waits(&rt, alloc, 7, &mut late)
            & (turn.makes(&rt, alloc, Post::new(3)) & noted(&turn, 1, 0))
            & (turn.makes(&rt, alloc, Receive::new()) & noted(&turn, 1, 1))
            & (turn.makes(&rt, alloc, Receive::new()) & noted(&turn, 1, 1))
    );
}

// Gives a future of task 7 up.
fn stops<F: TaskFuture<Turn<Shared>>>(turn: &mut Turn<Shared>, future: F) -> bool {
    turn.task = 7;
    future.cancel(turn);
    true
}

// A served receiver that is given up has taken nothing. A served sender that is given up has queued nothing.
#[test]
fn given_up(rt: HostRuntime) {
    let alloc = rt.alloc();
    let mut turn = turn_on(alloc, 1, 10);
    let [mut receiver, mut next_receiver] = [Receive::new(), Receive::new()];
    let [mut sender, mut next_sender] = [Post::new(2), Post::new(3)];
    assert!(rt;
        turn.waits(&rt, alloc, 7, &mut receiver)
            & turn.waits(&rt, alloc, 8, &mut next_receiver)
            & turn.makes(&rt, alloc, Post::new(1))
            & (turn.waits(&rt, alloc, 7, &mut sender) & turn.wakes(Some(7)))
            & (turn.waits(&rt, alloc, 6, &mut next_sender) & stops(&mut turn, receiver))
            & (turn.wakes(Some(8)) & noted(&turn, 1, 0))
            & !turn.waits(&rt, alloc, 8, &mut next_receiver)
            & (turn.wakes(Some(7)) & stops(&mut turn, sender))
            & (turn.wakes(Some(6)) & noted(&turn, 1, 1))
            & (!turn.waits(&rt, alloc, 6, &mut next_sender) & noted(&turn, 13, 1))
    );
}

// A call that is refused memory notes nothing. The test holds with and without a refusal; run it with each allocation
// refused in turn.
#[test]
fn refused(rt: HostRuntime) {
    let mut turn = turn_on(rt.alloc(), 1, 10);
    let shared = &mut turn.shared.part;
    if matches!(shared.send(None, 1, 7), Sending::Memory(1)) {
        assert!(rt; (shared.tally.sent == 0) & matches!(shared.send(None, 1, 7), Sending::Sent));
    }
    let _ = shared.send(None, 2, 7);
    let comes = matches!(shared.recv(None, 8), Receiving::Received(1));
    let _ = shared.recv(None, 8);
    assert!(rt; comes & (shared.tally.sent == 1) & (shared.tally.came == 1));
}

// Far more messages than a queue has room for at first.
#[test]
fn many_messages(rt: HostRuntime) {
    let mut turn = turn_on(rt.alloc(), 5000, 1);
    let shared = &mut turn.shared.part;
    let mut come = true;
    for number in 1..5001 {
        come = come & matches!(shared.send(None, number, 7), Sending::Sent);
    }
    assert!(rt; come & (shared.tally.sent == 12502500));
    for number in 1..5001 {
        come = come & matches!(shared.recv(None, 8), Receiving::Received(had) if had == number);
    }
    assert!(rt; come & (shared.tally.came == 12502500));
}
