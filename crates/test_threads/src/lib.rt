//! Tests of join words, inboxes, recorded inboxes, parkers, registries, blocking jobs, their table and pools, drivers, and
//! channels between threads, over their public calls.
#![tactic(auto)]

#[cfg(test)]
mod channels;
#[cfg(test)]
mod drivers;
#[cfg(test)]
mod inboxes;
#[cfg(test)]
mod job_tables;
#[cfg(test)]
mod jobs;
#[cfg(test)]
mod joinwords;
#[cfg(test)]
mod keeps;
#[cfg(test)]
mod pairs;
#[cfg(test)]
mod parkers;
#[cfg(test)]
mod pools;
#[cfg(test)]
mod recorded_inboxes;
#[cfg(test)]
mod states;
#[cfg(test)]
mod vectors;
#[cfg(test)]
mod wakes;
