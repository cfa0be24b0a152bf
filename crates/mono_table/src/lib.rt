//! Tables by number whose memory follows the values that live. A number costs nothing once all numbers near it were
//! given out and removed.
#![tactic(auto)]

mod directory;
mod pages;
mod parts;
mod ready;
mod slots;

pub use directory::Table;
pub use ready::ReadyTable;
pub use slots::{Slot, Slots};
