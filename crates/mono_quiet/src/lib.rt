//! Futures that make no task, so that a runtime polls only the futures that it was given.
#![tactic(auto)]

mod answers;
mod choices;
mod delays;
mod futures;
mod handles;
mod joins;
pub mod laws;
mod races;
mod repeats;
mod selects;
mod sequences;

pub use futures::Quiet;
