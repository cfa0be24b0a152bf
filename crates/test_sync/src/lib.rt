//! Tests of channels, semaphores, notices, watched values and locks, over their public calls: of values alone, and in turns
//! of tasks without a runtime.
#![tactic(auto)]

#[cfg(test)]
mod channels;
#[cfg(test)]
mod kept_notices;
#[cfg(test)]
mod locks;
#[cfg(test)]
mod many;
#[cfg(test)]
mod memory;
#[cfg(test)]
mod notices;
#[cfg(test)]
mod oneshots;
#[cfg(test)]
mod semaphores;
#[cfg(test)]
mod several;
#[cfg(test)]
mod tallies;
#[cfg(test)]
mod tickets;
#[cfg(test)]
mod turns;
#[cfg(test)]
mod watches;
