//! The runner's end.
ghost use Rattle.std.specs.Prelude.{◌≡◌, [], ◌∷◌, None};
ghost use Rattle.std.specs.Arc.{arc_value};
ghost use Rattle.mono_joinword.specs.Views.{runner_at};
ghost use Rattle.mono_joinword.specs.declared.views.Stage.TheVariants.{Working};

use crate::outcome::{JoinError, Outcome, Wakes};
use crate::views::{Kept, View};
use crate::word::Word;
use atomic_table::Seat;
use std::alloc::Global;
use std::sync::Arc;

mod calls;

/// The end of the party that runs the job. It has the output slot, which is empty, and ends in `complete`.
pub struct Runner<O: Outcome + Drop, W: Wakes + Drop> {
    pub(crate) word: Arc<Word<O, W>, Global>,
    pub(crate) seat: Seat<Option<Kept<O, W>>, View>,
    ghost sized: { ((arc_value word).shared.table_id.words ≡ 1) × ((arc_value word).shared.table_id.slots ≡ 2) },
    ghost seated: { seat.table_id ≡ (arc_value word).shared.table_id },
    ghost works: { seat.me ≡ (runner_at (arc_value word).shared.key Working, (0, None) ∷ []) },
}

/// The runner's seat after its completing step. Contracts see its view; it may be dropped at any time.
#[derive(Drop)]
pub struct RunnerSeat<O, W> {
    pub(crate) seat: Seat<Option<Kept<O, W>>, View>,
}

/// The result of the completing step.
#[derive(Drop)]
pub struct Completed<O, W> {
    /// The waker, if and only if the step found interest and a waker. It is not woken yet.
    pub woke: Option<W>,
    /// Whether the output was dropped, which is if and only if the step found no interest.
    pub dropped: bool,
    /// The view of the step, for contracts.
    pub seat: RunnerSeat<O, W>,
}

/// A runner that is dropped completes its word with `Canceled`, and wakes no task.
impl<O: Outcome + Drop, W: Wakes + Drop> Drop for Runner<O, W> {
    fn drop(self) {
        drop(self.complete(Err(JoinError::Canceled)));
    }
}
