//! Tests of tokens and of sets of tasks, over their public calls.
#![tactic(auto)]

#[cfg(test)]
mod join_sets;
#[cfg(test)]
mod tokens;
