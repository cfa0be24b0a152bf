// The call that makes both ends of a word.
ghost use Rattle.std.specs.Prelude.{◌≡◌, IfOk};
ghost use Rattle.mono_joinword.specs.Views.{fresh};
ghost use Rattle.mono_joinword.specs.Ends.{runner_view, joiner_view, SamePair};
ghost use Rattle.mono_joinword.specs.declared.views.Stage.TheVariants.{Working};

use crate::joiner::Joiner;
use crate::outcome::{Outcome, Wakes};
use crate::runner::Runner;
use crate::word::{Claim, Halves, JOIN_INTEREST, Word};
use std::alloc::{AllocError, Global};
use std::sync::Arc;

/// Makes the two ends of a new word, for a job whose output will have this number. It takes memory, and is refused only
/// if out of memory.
pub fn pair<O: Outcome + Drop, W: Wakes + Drop>(
    alloc: Global,
    number: u64,
) -> Result<(Runner<O, W>, Joiner<O, W>), AllocError>
    ensures { IfOk result (λ p. (runner_view p.0 ≡ record { number = number; stage = Working }) × (joiner_view p.1 ≡ fresh number) × SamePair p.0 p.1) }
{
    let (table, mut seat) = Word::<O, W>::vacant(alloc, &[JOIN_INTEREST], 2, &number)?;
    table.shared.load::<Claim>(&mut seat, 0);
    let other = table.shared.split_seat::<Halves>(&mut seat);
    let word = Arc::new(alloc, table)?;
    let theirs = Arc::try_clone(&word)?;
    let joiner = Joiner {
        word: theirs,
        seat: other,
        placed: None,
        taken: false,
    };
    Ok((Runner { word, seat }, joiner))
}
