// The recorded inbox: a wake ends a park.
ghost use Rattle.std.specs.Prelude.{◌≡◌};

use mono_inbox::*;
use mono_model::Host;
use std::alloc::Global;
use std::marker::Brand;
use std::process::Abort;
use std::sync::ledger::{Blank, Ledger};

/// Asserts that a wake ends a park, without a share and with one.
fn wakes_end_parks<L: Ledger, R: Host + Abort>(rt: &R, alloc: Global, blank: Blank)
    requires { (blank.name ≡ L.name) × (blank.parts ≡ L.parts) × (blank.parts ≡ 1) }
{
    let (book, all) = blank.open::<L>();
    let parker = Parker::new(alloc).expect(rt, "memory");
    let handle = parker.handle().expect(rt, "memory");
    let made = RecordedInbox::new(alloc, 4, 8, 1, handle, book, all);
    let (inbox, mut shares) = made.expect(rt, "memory");
    let waker = inbox.waker(rt, alloc, 3).expect(rt, "memory");
    let mut share = shares.pop().expect(rt, "a share");
    for is_listed in [true, false] {
        assert!(rt; waker.wake(rt) == is_listed);
        parker.park(rt);
    }
    let mut tasks = Vec::new(alloc);
    inbox.drain(rt, alloc, &mut tasks).expect(rt, "memory");
    if share.calls() == 0 {
        waker.wake_with(rt, &mut share);
        parker.park(rt);
    }
    shares.push(share).expect(rt, "memory");
    assert!(rt; matches!(inbox.gather(rt, shares), Ok(1)));
}

#[test]
fn a_recorded_wake_ends_a_park(rt: HostRuntime) {
    wakes_end_parks::<Brand, _>(&rt, rt.alloc(), Blank::new(1));
}
