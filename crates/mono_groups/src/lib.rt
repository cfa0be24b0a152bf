//! Tokens that cancel, tasks that can be aborted, and sets of tasks, for the tasks of one runtime.
#![tactic(auto)]

pub mod acts;
mod answers;
mod asks;
mod gathered;
pub mod join_set;
mod join_set_acts;
mod join_set_calls;
pub mod laws;
mod members;
mod nodes;
mod token_calls;
pub mod tokens;
mod until;
mod waiters;

pub use asks::{Ask, Asking, ask_for};
pub use nodes::Token;
pub use until::{Aborted, RunUntil, UntilCancelled, run_until, run_until_cancelled};
pub use waiters::Asked;
