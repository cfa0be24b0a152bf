//! What a spawned task may answer, from its spawn to the polls of its handle.
#![tactic(auto)]

pub mod laws;
mod passages;

pub use passages::Passage;
