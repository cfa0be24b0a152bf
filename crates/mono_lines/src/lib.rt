//! Lines of text: journals and their check, and the calls on sessions, limiters and actors with their answers.
#![tactic(auto)]

pub mod actor;
pub mod limit;
mod numbers;
pub mod session;
pub mod trace;
