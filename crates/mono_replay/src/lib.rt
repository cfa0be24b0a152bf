//! The executor as a machine that takes events one by one and returns a report for each. A load is a long input made
//! from a seed, with a summary of its reports.
#![tactic(auto)]

mod clock_steps;
mod executor;
mod inbox;
mod jobs;
pub mod laws;
mod lists;
mod loads;
mod parts;
mod remote;
pub mod rows;
mod sleeps;
mod tallies;
mod turns;

pub use executor::Exec;
pub use lists::replay;
pub use loads::{Summary, load};
pub use mono_machine::{
    Act, Blocking, End, Ended, Event, How, List, MAX_NANOS, Query, Refusal, Reply, Report,
    TurnStep, Woke,
};
pub use mono_time::Timers;
