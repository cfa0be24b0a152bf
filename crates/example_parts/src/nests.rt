//! A future written by hand, and a join of selects of timeouts over it, proved from the clauses of its parts alone.
//!
//! The laws state the nest's answer to one poll, and its state after that poll and after it is given up. They use the
//! countdowns' remaining polls and the context's sleeps, and no definition inside a join, a select or a timeout.

mod by_hand;
pub mod laws;
mod races;
mod start;

pub use by_hand::Countdown;
pub use races::{Answer, Limited, Nest, Race, Raced, nest, polled_once, race};
pub use start::begin;
