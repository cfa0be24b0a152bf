//! The lines of a limiter: calls in, answers out.

mod calls;
pub mod laws;
mod print;
mod read;
mod serve;

pub use calls::LimiterCall;
pub use serve::{follow_limiter, limiter};
