//! Calls on locks and cells as futures: each is made in one turn.
//!
//! The functions here return a future, for forms such as `then`; the functions of the same names elsewhere take a context.
ghost use Rattle.std.specs.Prelude.{◌≡◌, is_some, true};
ghost use Rattle.mono_locks.specs.Mutexes.{Unlocks};
ghost use Rattle.mono_locks.specs.OnceCells.{Finishes, GivesBack};
ghost use Rattle.mono_locks.specs.RwLocks.{EndsRead, EndsWrite};

use crate::locks::unlock_part;
use crate::mutex::{Mutex, MutexGuard};
use crate::once_calls::{finish_part, give_back_part};
use crate::once_cell::{InitTurn, OnceCell};
use crate::rw_calls::{end_read_part, end_write_part};
use crate::rwlock::{RwLock, RwLockReadGuard, RwLockWriteGuard};
use mono_sync::Holds;
use mono_sync::acts::{Act, AtOnce, perform};
use std::alloc::Global;

/// A call of [`unlock`].
#[derive(Drop)]
pub struct UnlockCall<T> {
    guard: MutexGuard<T>,
}

/// Puts the value of a guard back. If tasks wait for it, the runtime wakes the first of them.
///
/// The guard comes back if the mutex is not locked: then another mutex made it.
pub fn unlock<W, T>(guard: MutexGuard<T>) -> AtOnce<W, UnlockCall<T>>
    ensures unspent { is_some result.act ≡ true }
{
    perform(UnlockCall { guard })
}

impl<W: Holds<Mutex<T>>, T: Drop> Act<W> for UnlockCall<T> {
    type Answer = Result<(), MutexGuard<T>>;

    ghost acts = { λ a w r v. Unlocks (W.part w) a.guard r (W.part v) };

    fn act(self, _alloc: Global, shared: &mut W) -> Result<(), MutexGuard<T>> {
        unlock_part::<W, T>(shared, self.guard)
    }
}

/// A call of [`end_read`].
#[derive(Drop)]
pub struct EndReadCall<T> {
    guard: RwLockReadGuard<T>,
}

/// Takes a read guard back. If it was the last one, the runtime wakes the first task that waits.
///
/// The guard comes back if no read guard is out: then another lock made it.
pub fn end_read<W, T>(guard: RwLockReadGuard<T>) -> AtOnce<W, EndReadCall<T>>
    ensures unspent { is_some result.act ≡ true }
{
    perform(EndReadCall { guard })
}

impl<W: Holds<RwLock<T>>, T: Drop> Act<W> for EndReadCall<T> {
    type Answer = Result<(), RwLockReadGuard<T>>;

    ghost acts = { λ a w r v. EndsRead (W.part w) a.guard r (W.part v) };

    fn act(self, _alloc: Global, shared: &mut W) -> Result<(), RwLockReadGuard<T>> {
        end_read_part::<W, T>(shared, self.guard)
    }
}

/// A call of [`end_write`].
#[derive(Drop)]
pub struct EndWriteCall<T> {
    guard: RwLockWriteGuard<T>,
}

/// Puts the value of the write guard back. The runtime wakes the first tasks that wait.
///
/// The guard comes back if none is out: then another lock made it.
pub fn end_write<W, T>(guard: RwLockWriteGuard<T>) -> AtOnce<W, EndWriteCall<T>>
    ensures unspent { is_some result.act ≡ true }
{
    perform(EndWriteCall { guard })
}

impl<W: Holds<RwLock<T>>, T: Drop> Act<W> for EndWriteCall<T> {
    type Answer = Result<(), RwLockWriteGuard<T>>;

    ghost acts = { λ a w r v. EndsWrite (W.part w) a.guard r (W.part v) };

    fn act(self, _alloc: Global, shared: &mut W) -> Result<(), RwLockWriteGuard<T>> {
        end_write_part::<W, T>(shared, self.guard)
    }
}

/// A call of [`finish`].
#[derive(Drop)]
pub struct FinishCall<T> {
    turn: InitTurn<T>,
    value: T,
}

/// Sets the cell and ends the turn. The runtime wakes all tasks that wait for it.
///
/// The value comes back if the cell was set, or if no turn is out: then another cell gave the turn.
pub fn finish<W, T>(turn: InitTurn<T>, value: T) -> AtOnce<W, FinishCall<T>>
    ensures unspent { is_some result.act ≡ true }
{
    perform(FinishCall { turn, value })
}

impl<W: Holds<OnceCell<T>>, T: Drop> Act<W> for FinishCall<T> {
    type Answer = Result<(), T>;

    ghost acts = { λ a w r v. Finishes (W.part w) a.value r (W.part v) };

    fn act(self, _alloc: Global, shared: &mut W) -> Result<(), T> {
        finish_part::<W, T>(shared, self.turn, self.value)
    }
}

/// A call of [`give_back`].
#[derive(Drop)]
pub struct GiveBackCall<T> {
    turn: InitTurn<T>,
}

/// Ends the turn without a value. The runtime wakes the first task that waits, and that task takes over.
pub fn give_back<W, T>(turn: InitTurn<T>) -> AtOnce<W, GiveBackCall<T>>
    ensures unspent { is_some result.act ≡ true }
{
    perform(GiveBackCall { turn })
}

impl<W: Holds<OnceCell<T>>, T: Drop> Act<W> for GiveBackCall<T> {
    type Answer = ();

    ghost acts = { λ a w r v. GivesBack (W.part w) (W.part v) };

    fn act(self, _alloc: Global, shared: &mut W) {
        give_back_part::<W, T>(shared, self.turn)
    }
}
