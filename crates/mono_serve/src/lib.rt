//! Services that the tasks of one runtime await: tokens of buckets, keys of sessions, and messages to actors, that they
//! share.
#![tactic(auto)]

mod buckets;
mod keepers;
pub mod laws;
mod lease_parts;
mod leases;
pub mod locks;
pub mod mail;
mod mailboxes;
mod receives;
mod takes;
mod wakes;

pub use buckets::{Asked, Buckets, Waiter};
pub use keepers::{Keeper, KeeperError};
pub use leases::{Claimed, Leases, LockWaiter, Looked};
pub use locks::{Acquire, AcquireError};
pub use mailboxes::{Mailboxes, Received, Receiver};
pub use receives::{Receive, receive_for};
pub use takes::{Take, TakeError};
