//! The lines of calls on actors, and the lines of their answers.

mod answers;
mod calls;
pub mod laws;
mod print;
mod read;
mod serve;
mod turns;
mod words;

pub use calls::{actors, follow_actors};
pub use serve::ActorService;
pub use words::{ActorLine, Handed};
