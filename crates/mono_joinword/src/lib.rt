//! The join word: one atomic word and two slots between the runner of a job and its joiner. One slot keeps the output,
//! the other the joiner's waker. No call waits or retries a step, and only `pair` takes memory.
#![tactic(auto)]

mod joiner;
mod laws;
mod make;
mod outcome;
mod runner;
mod views;
mod word;

pub use joiner::{Cancelled, Joiner, JoinerSeat};
pub use laws::{
    completing_keeps, joining_keeps, making_keeps, no_store_cancels, one_of_six_words,
    output_comes_once, told_is_woken,
};
pub use make::pair;
pub use mono_model::Poll;
pub use outcome::{JoinError, Outcome, Wakes};
pub use runner::{Completed, Runner, RunnerSeat};
pub use views::{JoinerView, Kind, RunnerView, Stage, View};
