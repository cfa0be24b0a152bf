//! Locks that are held over a wait, barriers, cells that are set once, and broadcasts, for the tasks of one runtime.
#![tactic(auto)]

pub mod acts;
mod asks;
pub mod barrier;
mod barrier_calls;
pub mod broadcast;
mod broadcast_calls;
pub mod laws;
mod locks;
pub mod mutex;
mod once_calls;
pub mod once_cell;
mod queues;
mod rw_calls;
pub mod rwlock;

pub use asks::{Ask, Asking, ask_for};
pub use queues::{Asked, Ticket};
