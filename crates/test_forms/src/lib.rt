//! Tests of chains by forms, over a context that logs what they do and on a runtime; of a channel's items and messages; of
//! blocking jobs as futures; and of futures that spawn and start jobs through any context.
#![tactic(auto)]

#[cfg(test)]
mod answers;
#[cfg(test)]
mod chains;
#[cfg(test)]
mod channels;
#[cfg(test)]
mod contexts;
#[cfg(test)]
mod counts;
#[cfg(test)]
mod jobs;
#[cfg(test)]
mod joins;
#[cfg(test)]
mod logs;
#[cfg(test)]
mod sequences;
#[cfg(test)]
mod ticks;
#[cfg(test)]
mod unlikes;
