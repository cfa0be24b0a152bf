//! The sessions by lines: each line is a call on them, and gets a line as its answer.

mod calls;
pub mod laws;
mod print;
mod read;
mod serve;

pub use calls::SessionCall;
pub use serve::{follow_sessions, sessions};
