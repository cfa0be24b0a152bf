//! One core of the lease server: leases with locks, token buckets and mailboxes as one plain value.
#![tactic(auto)]

mod clock_steps;
mod cores;
mod ends;
pub mod laws;
mod leases;
mod looks;
mod mails;
mod performs;
mod places;
mod requests;
mod routes;
mod sizes;
mod tells;
mod waits;

pub use cores::Core;
pub use ends::Waiter;
pub use requests::{Call, Counts, Outcome, Reply, Request};
pub use routes::core_of;
pub use sizes::Sizes;
