// The calls of a task on a cell that is set once.
ghost use Rattle.std.specs.Prelude.{◌≡◌, false, ℕ};
ghost use Rattle.mono_locks.specs.OnceCells.{Sets, Inits, Finishes, GivesBack, GivesUp};
ghost use Rattle.mono_task.specs.Owed.{Keeps};

use crate::asks::{Ask, Asking, ask_for};
use crate::once_cell::{Init, InitTurn, OnceCell, SetError};
use crate::queues::{Asked, Ticket};
use mono_sync::Holds;
use mono_task::SharedContext;
use std::marker::PhantomData;

/// A call of [`get_or_init`].
#[derive(Drop)]
pub struct InitCall<T> {
    value: PhantomData<T>,
}

/// A future that waits until the tasks' cell was set, or the task has the turn to make its value.
pub type InitFuture<W, T> = Asking<W, InitCall<T>>;

/// Returns a future that answers `Init::Set` once the tasks' cell was set, and `Init::Turn` if the task is to make the
/// value. It fails if out of memory.
pub fn get_or_init<W, T>() -> InitFuture<W, T>
    ensures unspent { result.has_answered ≡ false }
{
    ask_for(InitCall { value: PhantomData })
}

impl<W: Holds<OnceCell<T>>, T: Drop> Ask<W> for InitCall<T> {
    type Gets = Init<T>;

    ghost asks = { λ k ticket me w r v. Inits (W.part w) ticket me r (W.part v) };

    ghost leaves = { λ k ticket me w v. GivesUp (W.part w) ticket me (W.part v) };

    fn ask(&self, shared: &mut W, ticket: Option<Ticket>, me: u64) -> Asked<Init<T>> {
        shared.part_mut().get_or_init(ticket, me)
    }

    fn leave(&self, shared: &mut W, ticket: Option<Ticket>, me: u64) {
        shared.part_mut().give_up(ticket, me)
    }
}

// Sets the cell.
fn set_part<W: Holds<OnceCell<T>>, T: Drop>(whole: &mut W, value: T) -> Result<(), SetError<T>>
    ensures answer { Sets (W.part whole.old) value result (W.part whole.new) }
    ensures leads { W.leads whole.old whole.new }
    ensures keeps { (me : ℕ) → Keeps W.lists me whole.old whole.new }
{
    whole.part_mut().set(value)
}

// Sets the cell and ends the turn.
pub(crate) fn finish_part<W: Holds<OnceCell<T>>, T: Drop>(
    whole: &mut W,
    turn: InitTurn<T>,
    value: T,
) -> Result<(), T>
    ensures answer { Finishes (W.part whole.old) value result (W.part whole.new) }
    ensures leads { W.leads whole.old whole.new }
    ensures keeps { (me : ℕ) → Keeps W.lists me whole.old whole.new }
{
    whole.part_mut().finish(turn, value)
}

// Ends the turn without a value.
pub(crate) fn give_back_part<W: Holds<OnceCell<T>>, T: Drop>(whole: &mut W, turn: InitTurn<T>)
    ensures answer { GivesBack (W.part whole.old) (W.part whole.new) }
    ensures leads { W.leads whole.old whole.new }
    ensures keeps { (me : ℕ) → Keeps W.lists me whole.old whole.new }
{
    whole.part_mut().give_back(turn)
}

/// Sets the cell. The runtime wakes all tasks that wait for it after the turn.
///
/// Refused with `AlreadyInitialized` if it was set before, and with `Initializing` if a task has the turn, waits for it, or
/// is to have it next.
pub fn set<W: Holds<OnceCell<T>>, T: Drop, C: SharedContext<W>>(
    cx: &mut C,
    value: T,
) -> Result<(), SetError<T>>
    ensures answer { Sets (W.part (C.shared cx.old)) value result (W.part (C.shared cx.new)) }
    ensures work { C.work cx.new ≡ C.work cx.old }
    ensures reached { C.reaches cx.old cx.new }
{
    set_part::<W, T>(cx.shared_mut(), value)
}

/// Sets the cell and ends the turn. The runtime wakes all tasks that wait for it after the turn.
///
/// The value comes back if the cell was set, or if no turn is out: then another cell gave the turn.
pub fn finish<W: Holds<OnceCell<T>>, T: Drop, C: SharedContext<W>>(
    cx: &mut C,
    turn: InitTurn<T>,
    value: T,
) -> Result<(), T>
    ensures answer { Finishes (W.part (C.shared cx.old)) value result (W.part (C.shared cx.new)) }
    ensures work { C.work cx.new ≡ C.work cx.old }
    ensures reached { C.reaches cx.old cx.new }
{
    finish_part::<W, T>(cx.shared_mut(), turn, value)
}

/// Ends the turn without a value. The runtime wakes the first task that waits after the turn, and that task takes over.
pub fn give_back<W: Holds<OnceCell<T>>, T: Drop, C: SharedContext<W>>(cx: &mut C, turn: InitTurn<T>)
    ensures answer { GivesBack (W.part (C.shared cx.old)) (W.part (C.shared cx.new)) }
    ensures work { C.work cx.new ≡ C.work cx.old }
    ensures reached { C.reaches cx.old cx.new }
{
    give_back_part::<W, T>(cx.shared_mut(), turn)
}
