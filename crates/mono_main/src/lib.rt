//! The program as one function: from the words of its call and its streams to the number with which it exits.
#![tactic(auto)]

mod calls;
mod causes;
mod errors;
mod help;
mod pages;
mod threads;

pub use calls::exits;
pub use errors::Explains;
pub use threads::{JoinSpawner, Joins};
