// The word with its bits, its rule, and the kinds of its steps.
ghost use Rattle.mono_joinword.specs.Rule.{Joined};
ghost use Rattle.mono_joinword.specs.Steps.{first_view, runner_half, joiner_half, claims, completes, peeks, looks, clears, places, cancels, tries};

use crate::outcome::{Outcome, Wakes};
use crate::views::{Kept, View};
use atomic_table::{Play, Split, Table, TableRule};
use std::alloc::Global;
use std::marker::PhantomData;

/// The job is complete: its output is there for the joiner, or no party waits for it.
pub const COMPLETE: u64 = 2;

/// The joiner did not cancel.
pub const JOIN_INTEREST: u64 = 8;

/// A waker is in place.
pub const JOIN_WAKER: u64 = 16;

/// The rule that each step keeps.
pub struct JoinRule<O, W> {
    marker: PhantomData<(O, W)>,
}

impl<O: Outcome, W: Wakes> TableRule<Option<Kept<O, W>>, View, u64> for JoinRule<O, W> {
    ghost holds = { Joined O.output_number W.waker_number };

    ghost first = { first_view };
}

/// The word, with the slot of the output and the slot of the waker.
pub type Word<O, W> = Table<Option<Kept<O, W>>, View, u64, JoinRule<O, W>, Global>;

/// The maker's seat becomes the runner's, and a new one is the joiner's.
pub struct Halves;

impl Split<View> for Halves {
    ghost left = { runner_half };

    ghost right = { joiner_half };
}

/// The maker's load takes the output slot, for the runner.
pub struct Claim;

impl<O, W> Play<Option<Kept<O, W>>, View> for Claim {
    ghost then = { λ st. claims };
}

/// The runner's one step sets COMPLETE.
pub struct Complete;

impl<O, W: Wakes> Play<Option<Kept<O, W>>, View> for Complete {
    ghost then = { λ st. completes W.waker_number };
}

/// A load that takes nothing.
pub struct Peek;

impl<O, W> Play<Option<Kept<O, W>>, View> for Peek {
    ghost then = { λ st. peeks };
}

/// A poll's load takes the output if the word is complete, and the waker slot if no waker is in place.
pub struct Look;

impl<O: Outcome, W> Play<Option<Kept<O, W>>, View> for Look {
    ghost then = { λ st. looks O.output_number };
}

/// 24 becomes 8, and the waker is taken back; or the output is taken.
pub struct Clear;

impl<O: Outcome, W> Play<Option<Kept<O, W>>, View> for Clear {
    ghost then = { λ st. clears O.output_number };
}

/// 8 becomes 24, with the waker in its slot; or the output is taken.
pub struct Place;

impl<O: Outcome, W: Wakes> Play<Option<Kept<O, W>>, View> for Place {
    ghost then = { λ st. places O.output_number W.waker_number };
}

/// 8 or 24 becomes 0, and a waker is taken back; or the output is taken.
pub struct Cancel;

impl<O: Outcome, W> Play<Option<Kept<O, W>>, View> for Cancel {
    ghost then = { λ st. cancels O.output_number };
}

/// The same step after the output was taken, which finds the word complete.
pub struct Try;

impl<O, W> Play<Option<Kept<O, W>>, View> for Try {
    ghost then = { λ st. tries };
}
