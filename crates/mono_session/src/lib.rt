//! Leases that heartbeats renew, and the queues of keys in which their sessions wait for locks.
#![tactic(auto)]

mod advances;
mod deadlines;
mod entries;
mod error;
mod keeper;
mod laws;
mod nodes;
mod places;
mod rows;

pub use error::SessionError;
pub use keeper::Sessions;
pub use laws::{
    closes_in_time, none_closes_twice, none_is_ever_late, only_open_stand, queues_are_told,
};
pub use rows::{closed_owns_not, kept_open, next_owns};
