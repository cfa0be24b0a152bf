//! Tests of the wheel and its lists, the tables, tasks, instants, timers, combined futures, streams, the nest and
//! retries, over their public calls.
#![tactic(auto)]

#[cfg(test)]
mod boards;
#[cfg(test)]
mod combinators;
#[cfg(test)]
mod deadlines;
#[cfg(test)]
mod desks;
#[cfg(test)]
mod instants;
#[cfg(test)]
mod interval_ticks;
#[cfg(test)]
mod lent;
#[cfg(test)]
mod lists;
#[cfg(test)]
mod many;
#[cfg(test)]
mod nests;
#[cfg(test)]
mod pulses;
#[cfg(test)]
mod retries;
#[cfg(test)]
mod stream_adapters;
#[cfg(test)]
mod stream_items;
#[cfg(test)]
mod streams;
#[cfg(test)]
mod tables;
#[cfg(test)]
mod tasks;
#[cfg(test)]
mod timers;
#[cfg(test)]
mod vectors;
#[cfg(test)]
mod wheels;
