//! Clocks, and the drivers on which a runtime waits: a driver that never waits, a driver that parks its thread, a driver
//! that marks a runtime with timers, and a driver of whose calls those fail that a test lists.
#![tactic(auto)]

mod clock;
mod driver;
mod failing;
mod lists;
mod moments;
mod steps;
mod system_clocks;
mod threads;
mod time_driver;

pub use clock::Clock;
pub use driver::{Driver, DriverFault};
pub use failing::FailingDriver;
pub use lists::ListClock;
pub use mono_time::Instant;
pub use steps::StepDriver;
pub use system_clocks::SystemClock;
pub use threads::ThreadDriver;
pub use time_driver::TimeDriver;
