//! Tests of what tasks await: services, other tasks and threads.
#![tactic(auto)]

#[cfg(test)]
mod channel_forms;
#[cfg(test)]
mod forms;
#[cfg(test)]
mod handovers;
#[cfg(test)]
mod many;
#[cfg(test)]
mod outsides;
#[cfg(test)]
mod peers;
#[cfg(test)]
mod requests;
#[cfg(test)]
mod shares;
