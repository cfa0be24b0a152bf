//! The text of requests to the lease server, and of its replies.
#![tactic(auto)]

mod calls;
mod causes;
mod replies;
mod requests;

pub use replies::{Stamp, put_bad, put_replies, put_reply};
pub use requests::request_of;
