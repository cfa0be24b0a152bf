//! Actors with mailboxes, whose turns come one after another, and their receive timeouts.
#![tactic(auto)]

mod advances;
mod answers;
pub mod laws;
mod mailboxes;
mod places;
mod queues;
pub mod rows;
mod store;
mod table;
mod timers;

pub use answers::{ActorError, After, Got, SendRefused, Sent};
pub use table::Actors;
