// The completing step.
ghost use Rattle.std.specs.Prelude.{◌≡◌, ◌≢◌, IsTrue, ◌↔◌, IfOk, MatchOption};
ghost use Rattle.mono_joinword.specs.Views.{is_canceled};
ghost use Rattle.mono_joinword.specs.Ends.{runner_view, seat_view, found_at, woke_at, IsCompleted, RunnerLeft};

use super::{Completed, Runner, RunnerSeat};
use crate::outcome::{JoinError, Outcome, Wakes};
use crate::views::Kept;
use crate::word::{COMPLETE, Complete, JOIN_INTEREST, JOIN_WAKER};

impl<O: Outcome + Drop, W: Wakes + Drop> Runner<O, W> {
    /// Ends the job with an output of the pair's number, or with Canceled. One step completes the word. If it found no
    /// interest (0), the output is dropped; otherwise it is left for the joiner. If it found interest and a waker (24),
    /// that waker comes back. `seat` says which word the step found and whether the output is Canceled.
    pub fn complete(self, outcome: Result<O, JoinError>) -> Completed<O, W>
        requires { IfOk outcome (λ o. O.output_number o ≡ (runner_view self).number) }
        ensures seat { ((seat_view result.seat).number ≡ (runner_view self).number) × IsCompleted (is_canceled outcome) (seat_view result.seat).stage }
        ensures left { RunnerLeft self result.seat }
        ensures dropped { IsTrue result.dropped ↔ (found_at (seat_view result.seat).stage ≡ 0) }
        ensures woke { MatchOption result.woke (found_at (seat_view result.seat).stage ≢ 24)
            (λ w. (found_at (seat_view result.seat).stage ≡ 24) × (W.waker_number w ≡ woke_at (seat_view result.seat).stage)) }
    {
        let Self { word, mut seat } = self;
        let shared = &word.shared;
        drop(shared.exchange(&mut seat, 0, Some(Kept::Output(outcome))));
        let found = shared.fetch_or::<Complete>(&mut seat, 0, COMPLETE);
        if found == 0 {
            drop(shared.exchange(&mut seat, 0, None));
            return Completed {
                woke: None,
                dropped: true,
                seat: RunnerSeat { seat },
            };
        }
        if found == JOIN_INTEREST | JOIN_WAKER {
            let Some(Kept::Waker(waker)) = shared.exchange(&mut seat, 1, None) else {
                unreachable!()
            };
            return Completed {
                woke: Some(waker),
                dropped: false,
                seat: RunnerSeat { seat },
            };
        }
        Completed {
            woke: None,
            dropped: false,
            seat: RunnerSeat { seat },
        }
    }
}
