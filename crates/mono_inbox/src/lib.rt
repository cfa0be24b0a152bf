//! Wakes from other threads: the inbox of an executor, its wakers, the registry of inboxes and the parker.
#![tactic(auto)]

mod inbox;
mod log;
mod marks;
mod pages;
mod parker;
mod parts;
mod recorded_inbox;
mod recorded_state;
mod registry;
mod rows;
mod shares;
mod standings;
mod state;
mod waker;

pub use inbox::Inbox;
pub use log::CallEntry;
pub use parker::{Parker, Token, UnparkHandle};
pub use recorded_inbox::{RecordedInbox, RecordedWaker};
pub use recorded_state::RecordedState;
pub use registry::{RegisterError, Registry, RegistryState};
pub use shares::{CallShare, PutReply, Recorded};
pub use state::InboxState;
pub use waker::{NoUnpark, RemoteWaker, Unpark};
