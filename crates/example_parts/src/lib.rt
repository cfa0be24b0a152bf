//! Programs over futures, timers and jobs, without a runtime.
#![tactic(auto)]

pub mod deadlines;
pub mod nests;
pub mod pairs;
pub mod pulses;
