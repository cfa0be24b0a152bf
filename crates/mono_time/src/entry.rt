// The entry of a live sleep, at its key in the wheel.
ghost use Rattle.std.specs.Prelude.{◌≡◌, ◌<◌, ◌-◌, ◌^◌, ℕ, [], ◌∷◌, ◌++◌, OnOk, OnErr, IfOk, Some, length, slice_get};
ghost use Rattle.mono_model.specs.Table.{next_number};
ghost use Rattle.mono_wheel.specs.Credit.{credit};
ghost use Rattle.mono_time.specs.Entries.{is_armed_state, is_elapsed_state, waker_in_state};
ghost use Rattle.mono_time.specs.Representation.{EntriesStay, KeyMade, NoKeyMade};

use mono_table::Table;
use mono_wheel::Wheel;
use std::alloc::{AllocError, Global};

/// A sleep for a tick that was never armed, an armed sleep with the task that polled it last, or an elapsed sleep. The
/// wheel has the tick at which a sleep is armed.
#[derive(Clone, Copy)]
pub(crate) enum State {
    Fresh(u64),
    Unwatched,
    Armed(u64),
    Elapsed,
}

/// A sleep's number and its state.
#[derive(Clone, Copy)]
pub(crate) struct Entry {
    pub(crate) sleep: u64,
    pub(crate) state: State,
}

impl State {
    pub(crate) fn is_armed(&self) -> bool
        ensures { result ≡ is_armed_state self.now }
    {
        match self {
            State::Fresh(_) => false,
            State::Unwatched => true,
            State::Armed(_) => true,
            State::Elapsed => false,
        }
    }

    pub(crate) fn is_elapsed(&self) -> bool
        ensures { result ≡ is_elapsed_state self.now }
    {
        match self {
            State::Fresh(_) => false,
            State::Unwatched => false,
            State::Armed(_) => false,
            State::Elapsed => true,
        }
    }

    /// Returns the task that is to be woken when the sleep elapses.
    pub(crate) fn waker(&self) -> Option<u64>
        ensures { result ≡ waker_in_state self.now }
    {
        match self {
            State::Fresh(_) => None,
            State::Unwatched => None,
            State::Armed(waker) => Some(*waker),
            State::Elapsed => None,
        }
    }
}

/// Makes an entry for a key that has none yet.
pub(crate) fn make_entry(entries: &mut Vec<Entry>, key: usize) -> Result<(), AllocError>
    ensures below { OnOk result (key < length entries.new.items) }
    ensures kept { (k : ℕ) → k < length entries.old.items → slice_get entries.new.items k ≡ slice_get entries.old.items k }
{
    while entries.len() <= key {
        entries.push(Entry {
            sleep: 0,
            state: State::Elapsed,
        })?;
    }
    Ok(())
}

/// Makes the places of a further sleep with this key: one for its entry, and one for its key. If out of memory, adds no
/// key.
pub(crate) fn make_places(
    alloc: Global,
    keys: &mut Table<u32>,
    entries: &mut Vec<Entry>,
    key: usize,
) -> Result<(), AllocError>
    requires { next_number keys.old < 2 ^ 64 - 1 }
    ensures keys { OnOk result (keys.new ≡ keys.old ++ Some key ∷ []) }
    ensures inside { OnOk result (key < length entries.new.items) }
    ensures refused { OnErr result (keys.new ≡ keys.old) }
    ensures entries { EntriesStay entries.old.items entries.new.items }
{
    if key > u32::MAX as usize {
        return Err(AllocError);
    }
    make_entry(entries, key)?;
    keys.push(alloc, key as u32)
}

/// Reserves a key for a further sleep, with its places.
#[inline(always)]
pub(crate) fn make_key(
    alloc: Global,
    wheel: &mut Wheel,
    keys: &mut Table<u32>,
    entries: &mut Vec<Entry>,
) -> Result<usize, AllocError>
    requires { next_number keys.old < 2 ^ 64 - 1 }
    ensures made { IfOk result (λ key. KeyMade wheel.old wheel.new keys.old keys.new entries.old.items entries.new.items key) }
    ensures credit { credit wheel.new ≡ credit wheel.old }
    ensures refused { OnErr result (NoKeyMade wheel.old wheel.new keys.old keys.new entries.old.items entries.new.items) }
{
    let key = wheel.reserve_entry(alloc)?;
    match make_places(alloc, keys, entries, key) {
        Ok(()) => Ok(key),
        Err(error) => {
            wheel.free_entry(key);
            Err(error)
        }
    }
}
