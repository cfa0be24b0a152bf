//! The joiner's end.
ghost use Rattle.std.specs.Prelude.{◌≡◌};
ghost use Rattle.std.specs.Arc.{arc_value};
ghost use Rattle.mono_joinword.specs.Views.{Rests};

use crate::outcome::{JoinError, Outcome, Wakes};
use crate::views::{Kept, View};
use crate::word::Word;
use atomic_table::Seat;
use std::alloc::Global;
use std::sync::Arc;

mod calls;
mod steps;

/// The end of the party that waits for the job. `placed` is the number of the waker in place.
#[derive(Drop)]
pub struct Joiner<O: Outcome + Drop, W: Wakes + Drop> {
    pub(crate) word: Arc<Word<O, W>, Global>,
    pub(crate) seat: Seat<Option<Kept<O, W>>, View>,
    pub(crate) placed: Option<u64>,
    pub(crate) taken: bool,
    ghost sized: { ((arc_value word).shared.table_id.words ≡ 1) × ((arc_value word).shared.table_id.slots ≡ 2) },
    ghost seated: { seat.table_id ≡ (arc_value word).shared.table_id },
    ghost rests: { Rests (arc_value word).shared.key placed taken seat.me },
}

/// The joiner's seat after its last step. Contracts see its view; it may be dropped at any time.
#[derive(Drop)]
pub struct JoinerSeat<O, W> {
    pub(crate) seat: Seat<Option<Kept<O, W>>, View>,
}

/// The result of a cancel.
#[derive(Drop)]
pub struct Cancelled<O, W> {
    /// The output, if and only if the step found the word complete and the output was not taken.
    pub output: Option<Result<O, JoinError>>,
    /// The view of the step, for contracts.
    pub seat: JoinerSeat<O, W>,
}
