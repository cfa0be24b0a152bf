//! The sources for which a future waits after a pending poll, and that its task is registered there.
#![tactic(auto)]

mod asked_peers;
mod asked_tickets;
mod at_once;
mod boxes;
mod channels;
mod countdown;
mod delays;
mod jobs;
mod join_lists;
mod joins;
mod keyed_peers;
mod keyed_tickets;
pub mod laws;
mod leaves;
mod locks;
mod machines;
mod needing;
mod nowhere;
mod outsides;
mod peers;
mod placed;
mod races;
mod receives;
mod runtime;
mod select_lists;
mod selects;
mod sequences;
mod streams;
mod takes;
mod tickets;
mod ticks;
mod unlikes;
mod waits;

pub use countdown::Countdown;
pub use leaves::Reaching;
pub use machines::MachineContext;
pub use needing::{Named, Names, Needing};
pub use outsides::{FromOutside, Outside};
pub use placed::WaitsIn;
pub use streams::StreamWaits;
pub use waits::{JobWaitContext, RemoteWaitContext, SharedWaitContext, WaitContext, Waits};
