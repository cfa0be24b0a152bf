//! A channel between runtimes: senders in any thread, and one receiver whose task they wake.
#![tactic(auto)]

mod counts;
mod ends;
mod errors;
mod gate;
mod guards;
pub mod laws;
mod lines;
mod messages;
mod owned;
mod receiver;
mod rule;
mod sender;
mod stakes;
mod waiters;

pub use ends::{Receiver, Sender};
pub use errors::{SendError, TryRecvError, TrySendError};
pub use guards::{Closing, End};
pub use messages::{Recv, Send};
pub use owned::{IntoRecv, IntoSend};
pub use rule::{Delivery, Hand};
pub use sender::channel;
