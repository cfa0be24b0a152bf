//! Channels, semaphores and notices for the tasks of one runtime, as plain values that they share.
#![tactic(auto)]

pub mod acts;
mod boths;
mod changes;
mod deliveries;
mod idle;
mod keyed_changes;
mod keyed_deliveries;
mod keyed_messages;
mod keyed_notifications;
mod keyed_permits;
mod kinds;
pub mod laws;
mod lines;
mod making;
mod many_messages;
mod many_permits;
mod messages;
mod modifying;
pub mod mpsc;
mod notices;
mod notifications;
pub mod oneshot;
mod owns;
mod parts;
pub mod permits;
mod semaphores;
mod tables;
mod tallied_messages;
pub mod tallies;
mod touched;
mod waiting;
pub mod watch;

pub use boths::Both;
pub use keyed_notifications::{NotifiedAt, NotifiedAtError, notify_one_at, notify_waiters_at};
pub use keyed_permits::AcquireAt;
pub use kinds::{Tables, empty_tables};
pub use lines::{Line, Ticket, Waiter};
pub use making::{make, remove};
pub use notices::{Notify, Notifying};
pub use notifications::{Notified, notify_one, notify_waiters};
pub use owns::Own;
pub use parts::{Holds, Lists, Only};
pub use permits::{Acquire, AcquireError};
pub use semaphores::{Acquiring, MAX_PERMITS, Semaphore, TooManyPermits, TryAcquireError};
pub use tables::{Idle, Many, RemoveError};
