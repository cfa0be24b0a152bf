// The content of a slot, and the knowledge of each seat. Values of the views exist in proofs alone.
use crate::outcome::JoinError;
use std::collections::LinkedList;

/// The content of a slot: an output in slot 0, a waker in slot 1.
#[derive(Drop)]
pub enum Kept<O, W> {
    Output(Result<O, JoinError>),
    Waker(W),
}

/// The runner's progress.
pub enum Stage {
    /// The completing step was not made. Only the runner's seat knows whether the output is in its slot by now.
    Working,
    /// The completing step was made: the word that it found, whether the output is Canceled, and the number of the
    /// waker that it took, if it found one.
    Completed(u64, bool, u64),
}

/// The runner's knowledge: the pair's number, and its progress.
pub struct RunnerView {
    pub number: u64,
    pub stage: Stage,
}

/// A step of the joiner.
pub enum Kind {
    /// A load.
    Load,
    /// A compare-exchange of 8 for 24, which sets the waker bit.
    Place,
    /// A compare-exchange of 24 for 8, which clears the waker bit.
    Clear,
    /// A compare-exchange of 8 or 24 for 0, which clears interest and waker.
    Cancel,
}

/// The joiner's knowledge.
pub struct JoinerView {
    /// The pair's number.
    pub number: u64,
    /// Whether it cancelled. Its interest is in the word if and only if it did not.
    pub cancelled: bool,
    /// Whether a waker is in place: the word's waker bit.
    pub waker: bool,
    /// The number of the waker that is in place, or was in place last.
    pub waker_number: u64,
    /// Whether its seat has the waker slot.
    pub holds: bool,
    /// Whether it returned Pending with the waker that is in place.
    pub told: bool,
    /// Whether it saw COMPLETE.
    pub saw: bool,
    /// Whether it took the output.
    pub took: bool,
    /// Whether the output that it took was Canceled.
    pub took_canceled: bool,
    /// Its own steps, each with the word that it found.
    pub steps: LinkedList<(Kind, u64)>,
}

/// The knowledge of a seat of the table. The maker's exists before the split, and says whether it has the output slot.
pub enum View {
    Maker(u64, bool),
    Runner(RunnerView),
    Joiner(JoinerView),
}
