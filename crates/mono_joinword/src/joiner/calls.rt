// The calls of a joiner.
ghost use Rattle.std.specs.Prelude.{◌≡◌, false, IfSome};
ghost use Rattle.mono_model.specs.Poll.{OnPending, IfReady};
ghost use Rattle.mono_joinword.specs.Views.{HasNumber};
ghost use Rattle.mono_joinword.specs.Calls.{Polled, Waits, Took, Peeked, Cancels};
ghost use Rattle.mono_joinword.specs.Ends.{joiner_view, last_view, SameWord, JoinerLeft};
ghost use Rattle.mono_joinword.specs.declared.views.JoinerView.{JoinerView};

use super::steps::{cancel_seat, peek_seat, poll_seat, try_seat};
use super::{Cancelled, Joiner, JoinerSeat};
use crate::outcome::{JoinError, Outcome, Wakes};
use mono_model::Poll;

impl<O: Outcome + Drop, W: Wakes + Drop> Joiner<O, W> {
    /// Polls for the output, which no earlier poll may have returned.
    ///
    /// Returns Ready with it if a step of this call saw the word complete. Returns Pending only if the step
    /// that placed the waker, or the load that found one with its number in place, saw the word incomplete; `pending`
    /// says what then is known. A waker with the number of the one in place is dropped, and one with another number
    /// replaces it. `answer` lists each step of the call.
    pub fn poll(&mut self, waker: W) -> Poll<Result<O, JoinError>>
        requires { (joiner_view self.old).took ≡ false }
        ensures word { SameWord self.old self.new }
        ensures answer { Polled O.output_number (joiner_view self.old) (W.waker_number waker) result (joiner_view self.new) }
        ensures pending { OnPending result (Waits (W.waker_number waker) (joiner_view self.new)) }
        ensures ready { IfReady result (Took O.output_number (joiner_view self.old).number (joiner_view self.new)) }
    {
        let number = waker.number();
        let answer = poll_seat(&self.word, &mut self.seat, self.placed, waker);
        match &answer {
            Poll::Ready(_) => self.taken = true,
            Poll::Pending => self.placed = Some(number),
        }
        answer
    }

    /// Returns whether its one load saw the word complete.
    pub fn is_finished(&mut self) -> bool
        ensures word { SameWord self.old self.new }
        ensures answer { Peeked (joiner_view self.old) result (joiner_view self.new) }
    {
        peek_seat(&self.word, &mut self.seat)
    }

    /// Returns whether a poll answered Ready. It makes no step.
    pub fn is_taken(&self) -> bool
        ensures { result ≡ (joiner_view self.now).took }
    {
        self.taken
    }

    /// Ends the interest by one step. The output comes back if and only if that step found the word complete and the
    /// output was not taken. A waker in place is dropped if the step found the word incomplete. `seat` says what the
    /// step saw.
    pub fn cancel_with_seat(self) -> Cancelled<O, W>
        ensures answer { Cancels O.output_number (joiner_view self) result.output (last_view result.seat) }
        ensures left { JoinerLeft self result.seat }
        ensures number { IfSome result.output (HasNumber O.output_number (joiner_view self).number) }
    {
        let Self {
            word,
            mut seat,
            placed,
            taken,
        } = self;
        let output = if taken {
            try_seat(&word, &mut seat, placed)
        } else {
            cancel_seat(&word, &mut seat, placed)
        };
        Cancelled {
            output,
            seat: JoinerSeat { seat },
        }
    }

    /// Ends the interest as `cancel_with_seat` does, without returning the seat.
    pub fn cancel(self) -> Option<Result<O, JoinError>>
        ensures answer { (after : JoinerView) × Cancels O.output_number (joiner_view self) result after }
        ensures number { IfSome result (HasNumber O.output_number (joiner_view self).number) }
    {
        self.cancel_with_seat().output
    }
}
