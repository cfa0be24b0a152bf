// The consequences of the rule, as functions with empty bodies: their clauses are the laws.
ghost use Rattle.mono_joinword.specs.Laws.{MakingKeeps, CompletingKeeps, PeekingKeeps, LookingKeeps, ClearingKeeps, PlacingKeeps, CancellingKeeps, TryingKeeps, ToldIsWoken, ComesOnce, NeverBefore, SixWords, NoStore};

use crate::outcome::{Outcome, Wakes};

/// Shows that the two steps that make a pair keep the rule.
pub fn making_keeps<O: Outcome, W: Wakes>()
    ensures { MakingKeeps O.output_number W.waker_number }
{}

/// Shows that the runner's one step keeps the rule, whatever the joiner did before it.
pub fn completing_keeps<O: Outcome, W: Wakes>()
    ensures { CompletingKeeps O.output_number W.waker_number }
{}

/// Shows that each step of the joiner keeps the rule, whatever the runner did before it.
pub fn joining_keeps<O: Outcome, W: Wakes>()
    ensures peeking { PeekingKeeps O.output_number W.waker_number }
    ensures looking { LookingKeeps O.output_number W.waker_number }
    ensures clearing { ClearingKeeps O.output_number W.waker_number }
    ensures placing { PlacingKeeps O.output_number W.waker_number }
    ensures cancelling { CancellingKeeps O.output_number W.waker_number }
    ensures trying { TryingKeeps O.output_number W.waker_number }
{}

/// Shows that the completing step found and took the joiner's waker, if the joiner had returned Pending and the word is
/// complete.
pub fn told_is_woken<O: Outcome, W: Wakes>()
    ensures { ToldIsWoken O.output_number W.waker_number }
{}

/// Shows that the joiner gets the output at most once, not if the runner took it back, and never before completion.
pub fn output_comes_once<O: Outcome, W: Wakes>()
    ensures once { ComesOnce O.output_number W.waker_number }
    ensures after { NeverBefore O.output_number W.waker_number }
{}

/// Shows that the word has one of six values.
pub fn one_of_six_words<O: Outcome, W: Wakes>()
    ensures { SixWords O.output_number W.waker_number }
{}

/// Shows that a plain store of 0 is no step of a joiner that waits.
pub fn no_store_cancels<O: Outcome, W: Wakes>()
    ensures { NoStore O.output_number W.waker_number }
{}
