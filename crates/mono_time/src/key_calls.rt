// The effect of each call on the sleep at a key.
ghost use Rattle.std.specs.Prelude.{◌≡◌, ◌<◌, ◌≤◌, ◌+◌, ◌-◌, ◌^◌, true, is_some};
ghost use Rattle.mono_wheel.specs.Model.{timed_at, is_reserved};
ghost use Rattle.mono_wheel.specs.Credit.{credit, most_takes};
ghost use Rattle.mono_time.specs.declared.entry.State.TheVariants.{Elapsed};
ghost use Rattle.mono_time.specs.Entries.{is_armed_state, waker_in_state, fresh_tick};
ghost use Rattle.mono_time.specs.KeyCalls.{Out, entry_raise, PolledEntry, ResetEntry};

use crate::arms::{put_in, put_later};
use crate::entry::{Entry, State};
use mono_wheel::Wheel;

/// Polls the sleep at a key for a task, and first arms a fresh one. Returns whether it has elapsed.
pub(crate) fn poll_entry(
    wheel: &mut Wheel,
    entry: &mut Entry,
    key: usize,
    greatest: u64,
    by: u64,
) -> bool
    requires reserved { is_reserved wheel.old key ≡ true }
    requires is_in { is_some (timed_at wheel.old key) ≡ is_armed_state entry.old.state }
    requires fresh { fresh_tick entry.old.state < 2 ^ 63 }
    requires elapsed { wheel.old.elapsed ≤ greatest }
    ensures sleep { entry.new.sleep ≡ entry.old.sleep }
    ensures raise { credit wheel.new ≤ credit wheel.old + entry_raise wheel.old.elapsed entry.old.state }
    ensures polled { PolledEntry wheel.old wheel.new key greatest by entry.old.state entry.new.state result }
{
    match entry.state {
        State::Fresh(tick) => {
            if tick <= greatest {
                entry.state = State::Elapsed;
                return true;
            }
            put_in(wheel, key, tick);
            entry.state = State::Armed(by);
            false
        }
        State::Unwatched => {
            entry.state = State::Armed(by);
            false
        }
        State::Armed(_) => {
            entry.state = State::Armed(by);
            false
        }
        State::Elapsed => true,
    }
}

/// Takes a key out of the wheel, if it is in.
pub(crate) fn take_out(wheel: &mut Wheel, key: usize, is_armed: bool)
    requires { is_some (timed_at wheel.old key) ≡ is_armed }
    ensures out { Out wheel.old wheel.new key }
    ensures raise { credit wheel.new ≤ credit wheel.old }
{
    if is_armed {
        wheel.remove(key);
    }
}

/// Marks the sleep as elapsed. Returns its waker.
pub(crate) fn elapse(entry: &mut Entry) -> Option<u64>
    ensures waker { result ≡ waker_in_state entry.old.state }
    ensures entry { entry.new ≡ record { sleep = entry.old.sleep; state = Elapsed } }
{
    let waker = entry.state.waker();
    entry.state = State::Elapsed;
    waker
}

/// Arms the sleep at a key at a tick. If it elapses at once, returns its waker.
pub(crate) fn reset_entry(
    wheel: &mut Wheel,
    entry: &mut Entry,
    key: usize,
    greatest: u64,
    tick: u64,
) -> Option<u64>
    requires reserved { is_reserved wheel.old key ≡ true }
    requires is_in { is_some (timed_at wheel.old key) ≡ is_armed_state entry.old.state }
    requires range { tick < 2 ^ 63 }
    requires elapsed { wheel.old.elapsed ≤ greatest }
    ensures sleep { entry.new.sleep ≡ entry.old.sleep }
    ensures raise { credit wheel.new ≤ credit wheel.old + most_takes (tick - wheel.old.elapsed) }
    ensures reset { ResetEntry wheel.old wheel.new key greatest tick entry.old.state entry.new.state result }
{
    if tick <= greatest {
        take_out(wheel, key, entry.state.is_armed());
        return elapse(entry);
    }
    match entry.state {
        State::Unwatched => put_later(wheel, key, tick),
        State::Armed(_) => put_later(wheel, key, tick),
        State::Fresh(_) => {
            put_in(wheel, key, tick);
            entry.state = State::Unwatched;
        }
        State::Elapsed => {
            put_in(wheel, key, tick);
            entry.state = State::Unwatched;
        }
    }
    None
}
