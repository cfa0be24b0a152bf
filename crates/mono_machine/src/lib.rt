//! The reference machine: its events and reports, and what each event may answer and leave.
#![tactic(auto)]

mod events;
pub mod laws;
mod lists;
mod replies;
pub mod rows;

pub use events::{Act, Blocking, End, Event, How, Limits, Query, Refusal, Reply, Report, TurnStep};
pub use lists::List;
pub use mono_model::{Ended, MAX_NANOS, Woke};
pub use replies::{
    drop_reply, elapsed_reply, finished_reply, gone_reply, join_reply, poll_reply, refusal_of,
    reply_of, reset_reply, wake_reply,
};
