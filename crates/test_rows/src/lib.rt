//! The top call from bytes to bytes: the promises on which a caller may rely, and tests that no plain example has.
//! These are calls that fail, inputs that are no text or have no end, long inputs, a clock that is read, a worker
//! that begins late, and the live tasks of a run that spent its budget; and the whole program over memory, with its
//! causes and its number. Then lines and their text, commands that answer as they read, and the sentences about wrong
//! lines and words.
#![tactic(auto)]

#[cfg(test)]
mod caller;
#[cfg(test)]
mod cases;
#[cfg(test)]
mod clocks;
#[cfg(test)]
mod complaints;
#[cfg(test)]
mod edges;
#[cfg(test)]
mod event_texts;
#[cfg(test)]
mod followers;
#[cfg(test)]
mod late;
#[cfg(test)]
mod lines;
#[cfg(test)]
mod live_tasks;
#[cfg(test)]
mod many;
#[cfg(test)]
mod runs;
#[cfg(test)]
mod sentences;
#[cfg(test)]
mod whole_calls;

#[cfg(test)]
pub use caller::status_of;
