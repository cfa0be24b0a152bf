//! Tests of the runtime and of channels between runtimes, with a driver that never waits and with real threads, over
//! their public calls.
#![tactic(auto)]

#[cfg(test)]
mod answers;
#[cfg(test)]
mod builders;
#[cfg(test)]
mod cases;
#[cfg(test)]
mod channels;
#[cfg(test)]
mod crowds;
#[cfg(test)]
mod pools;
#[cfg(test)]
mod runs;
#[cfg(test)]
mod runtimes;
#[cfg(test)]
mod submits;
#[cfg(test)]
mod turns;
#[cfg(test)]
mod vectors;
#[cfg(test)]
mod waits;
