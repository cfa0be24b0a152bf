// The parts of a runtime other than its futures, with their acts, and the journal of what was done. A runtime's user
// reaches none of them.

mod acts;
mod calls;
mod clock_steps;
mod drains;
mod errors;
mod held_room;
mod job_acts;
mod journals;
pub mod laws;
mod mains;
mod notes;
mod parks;
mod start;
mod state;
mod takes;
mod turns;

pub use errors::RunError;
pub use journals::{Entry, Journal, new_journal};
pub use state::Parts;
pub(crate) use takes::{Taken, take_waiting};
