//! Simulation: many runtimes on one thread, in virtual time, scheduled by a seed.
#![tactic(auto)]

mod draws;
mod drivers;
mod faults;
mod launches;
pub mod laws;
mod nodes;
mod peers;
mod schedules;
mod seats;
mod steps;
mod threads;
mod trials;
mod waits;
mod worlds;

pub use draws::Odds;
pub use drivers::SimDriver;
pub use faults::Faults;
pub use nodes::Node;
pub use peers::{Peer, PeerTask};
pub use schedules::{Draw, Schedule};
pub use seats::Seat;
pub use steps::{End, Step};
pub use threads::run_once;
pub use trials::{Failure, System, Trial, Untried, simulate};
pub use worlds::World;
