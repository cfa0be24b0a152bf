//! Instants, sleeps, and the futures that wait for them.
#![tactic(auto)]

mod arms;
mod constructors;
mod context;
mod due_sleeps;
mod entry;
mod error;
mod fires;
mod instant;
mod intervals;
mod key_calls;
pub mod laws;
mod missed_ticks;
mod nap_timeouts;
mod naps;
mod sleeps;
mod ticks;
mod timeouts;
mod timers;

pub use constructors::{interval, interval_at, sleep, sleep_until, timeout, timeout_at};
pub use context::TimeContext;
pub use due_sleeps::{Due, take_due};
pub use error::{Elapsed, LateError, TimeoutError};
pub use instant::Instant;
pub use intervals::Interval;
pub use missed_ticks::MissedTickBehavior;
pub use mono_model::{Error, SleepError};
pub use nap_timeouts::{TimeoutFor, timeout_for};
pub use naps::{SleepFor, sleep_for};
pub use sleeps::Sleep;
pub use ticks::Tick;
pub use timeouts::{Timeout, TimeoutRefused};
pub use timers::Timers;
