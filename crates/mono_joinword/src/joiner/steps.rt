// Steps of the joiner on its seat.
ghost use Rattle.std.specs.Prelude.{◌≡◌, ◌↔◌, true, false, IsTrue, [], ◌∷◌, Some, None};
ghost use Rattle.atomic_table.specs.Table.{rest};
ghost use Rattle.mono_model.specs.Poll.{OnPending};
ghost use Rattle.mono_joinword.specs.declared.views.Kept.TheVariants.{Output, Waker};
ghost use Rattle.mono_joinword.specs.declared.views.View.TheVariants.{Joiner as joiner_with};
ghost use Rattle.mono_joinword.specs.Calls.{Placed, Replaced, Polled, Peeked, Cancels};
ghost use Rattle.mono_joinword.specs.Views.{bits, Emptied, has_waker, joiner_of, opened, resting};

use crate::outcome::{JoinError, Outcome, Wakes};
use crate::views::{Kept, View};
use crate::word::{
    COMPLETE, Cancel, Clear, JOIN_INTEREST, JOIN_WAKER, Look, Peek, Place, Try, Word,
};
use atomic_table::Seat;
use mono_model::Poll;

// Takes the output from the slot that the seat took last.
pub(super) fn take_output<O: Outcome + Drop, W: Wakes + Drop>(
    word: &Word<O, W>,
    seat: &mut Seat<Option<Kept<O, W>>, View>,
) -> Result<O, JoinError>
    requires { (seat.old.table_id ≡ word.now.shared.table_id) × ((r : _) × (seat.old.me.1 ≡ (0, Some (Output r)) ∷ rest seat.old.me.1)) }
    ensures { (seat.new.table_id ≡ seat.old.table_id) × (seat.new.id ≡ seat.old.id) × (seat.old.me.1 ≡ (0, Some (Output result)) ∷ rest seat.old.me.1) × (seat.new.me ≡ (seat.old.me.0, (0, None) ∷ rest seat.old.me.1)) }
{
    let Some(Kept::Output(r)) = word.shared.exchange(seat, 0, None) else {
        unreachable!()
    };
    r
}

// Takes the waker from the slot that the seat took last.
pub(super) fn take_waker<O: Outcome + Drop, W: Wakes + Drop>(
    word: &Word<O, W>,
    seat: &mut Seat<Option<Kept<O, W>>, View>,
) -> W
    requires { (seat.old.table_id ≡ word.now.shared.table_id) × ((w : _) × (seat.old.me.1 ≡ (1, Some (Waker w)) ∷ rest seat.old.me.1)) }
    ensures { (seat.new.table_id ≡ seat.old.table_id) × (seat.new.id ≡ seat.old.id) × (seat.old.me.1 ≡ (1, Some (Waker result)) ∷ rest seat.old.me.1) × (seat.new.me ≡ (seat.old.me.0, (1, None) ∷ rest seat.old.me.1)) }
{
    let Some(Kept::Waker(w)) = word.shared.exchange(seat, 1, None) else {
        unreachable!()
    };
    w
}

// Places the waker in the waker slot, which the seat has; no waker is in place.
pub(super) fn place<O: Outcome + Drop, W: Wakes + Drop>(
    word: &Word<O, W>,
    seat: &mut Seat<Option<Kept<O, W>>, View>,
    waker: W,
) -> Poll<Result<O, JoinError>>
    requires table { (seat.old.table_id ≡ word.now.shared.table_id) × (word.now.shared.table_id.words ≡ 1) }
    requires open { (seat.old.me ≡ (joiner_with (opened (joiner_of seat.old.me.0)), (1, None) ∷ [])) × ((joiner_of seat.old.me.0).number ≡ word.now.shared.key) }
    ensures seat { (seat.new.table_id ≡ seat.old.table_id) × (seat.new.id ≡ seat.old.id) }
    ensures view { seat.new.me.0 ≡ joiner_with (joiner_of seat.new.me.0) }
    ensures slots { OnPending result (seat.new.me.1 ≡ []) }
    ensures left { Emptied seat.new.me.1 }
    ensures answer { Placed O.output_number (joiner_of seat.old.me.0) (W.waker_number waker) result (joiner_of seat.new.me.0) }
{
    drop(word.shared.exchange(seat, 1, Some(Kept::Waker(waker))));
    let found = word
        .shared
        .compare_exchange::<Place>(seat, 0, JOIN_INTEREST, JOIN_INTEREST | JOIN_WAKER);
    if found == JOIN_INTEREST {
        return Poll::Pending;
    }
    seat.turn();
    drop(take_waker(word, seat));
    seat.turn();
    Poll::Ready(take_output(word, seat))
}

// Returns whether the waker in place has this number.
fn is_placed(placed: Option<u64>, number: u64) -> bool
    ensures { IsTrue result ↔ (placed ≡ Some number) }
{
    placed == Some(number)
}

// Replaces the waker in place, whose number is `placed`, which the load found. It stays if the new one has the same
// number.
pub(super) fn replace<O: Outcome + Drop, W: Wakes + Drop>(
    word: &Word<O, W>,
    seat: &mut Seat<Option<Kept<O, W>>, View>,
    placed: Option<u64>,
    waker: W,
) -> Poll<Result<O, JoinError>>
    requires table { (seat.old.table_id ≡ word.now.shared.table_id) × (word.now.shared.table_id.words ≡ 1) }
    requires view { (seat.old.me ≡ (joiner_with (resting word.now.shared.key placed (joiner_of seat.old.me.0)), [])) × (has_waker placed ≡ true) }
    ensures seat { (seat.new.table_id ≡ seat.old.table_id) × (seat.new.id ≡ seat.old.id) }
    ensures view { seat.new.me.0 ≡ joiner_with (joiner_of seat.new.me.0) }
    ensures slots { OnPending result (seat.new.me.1 ≡ []) }
    ensures left { Emptied seat.new.me.1 }
    ensures answer { Replaced O.output_number (joiner_of seat.old.me.0) (W.waker_number waker) result (joiner_of seat.new.me.0) }
{
    if is_placed(placed, waker.number()) {
        return Poll::Pending;
    }
    let cleared = word
        .shared
        .compare_exchange::<Clear>(seat, 0, JOIN_INTEREST | JOIN_WAKER, JOIN_INTEREST);
    if cleared == JOIN_INTEREST | JOIN_WAKER {
        drop(take_waker(word, seat));
        return place(word, seat, waker);
    }
    Poll::Ready(take_output(word, seat))
}

// Polls on the seat of a joiner that took no output. `placed` is the number of the waker in place.
pub(super) fn poll_seat<O: Outcome + Drop, W: Wakes + Drop>(
    word: &Word<O, W>,
    seat: &mut Seat<Option<Kept<O, W>>, View>,
    placed: Option<u64>,
    waker: W,
) -> Poll<Result<O, JoinError>>
    requires table { (seat.old.table_id ≡ word.now.shared.table_id) × (word.now.shared.table_id.words ≡ 1) }
    requires rests { seat.old.me ≡ (joiner_with (resting word.now.shared.key placed (joiner_of seat.old.me.0)), []) }
    ensures seat { (seat.new.table_id ≡ seat.old.table_id) × (seat.new.id ≡ seat.old.id) }
    ensures view { seat.new.me.0 ≡ joiner_with (joiner_of seat.new.me.0) }
    ensures slots { OnPending result (seat.new.me.1 ≡ []) }
    ensures left { Emptied seat.new.me.1 }
    ensures answer { Polled O.output_number (joiner_of seat.old.me.0) (W.waker_number waker) result (joiner_of seat.new.me.0) }
{
    let found = word.shared.load::<Look>(seat, 0);
    if found == JOIN_INTEREST {
        return place(word, seat, waker);
    }
    if found == JOIN_INTEREST | JOIN_WAKER {
        return replace(word, seat, placed, waker);
    }
    Poll::Ready(take_output(word, seat))
}

// Returns the word before it is complete.
fn word_with(placed: Option<u64>) -> u64
    ensures { result ≡ bits false (has_waker placed) }
{
    match placed {
        Some(_) => JOIN_INTEREST | JOIN_WAKER,
        None => JOIN_INTEREST,
    }
}

// Makes one load.
pub(super) fn peek_seat<O: Outcome + Drop, W: Wakes + Drop>(
    word: &Word<O, W>,
    seat: &mut Seat<Option<Kept<O, W>>, View>,
) -> bool
    requires table { (seat.old.table_id ≡ word.now.shared.table_id) × (word.now.shared.table_id.words ≡ 1) }
    requires view { (seat.old.me.0 ≡ joiner_with (joiner_of seat.old.me.0)) × ((joiner_of seat.old.me.0).number ≡ word.now.shared.key) × ((joiner_of seat.old.me.0).cancelled ≡ false) }
    ensures seat { (seat.new.table_id ≡ seat.old.table_id) × (seat.new.id ≡ seat.old.id) × (seat.new.me.1 ≡ seat.old.me.1) }
    ensures view { seat.new.me.0 ≡ joiner_with (joiner_of seat.new.me.0) }
    ensures answer { Peeked (joiner_of seat.old.me.0) result (joiner_of seat.new.me.0) }
{
    let found = word.shared.load::<Peek>(seat, 0);
    found & COMPLETE != 0
}

// Makes one step, which clears both bits if the word is not complete.
pub(super) fn cancel_seat<O: Outcome + Drop, W: Wakes + Drop>(
    word: &Word<O, W>,
    seat: &mut Seat<Option<Kept<O, W>>, View>,
    placed: Option<u64>,
) -> Option<Result<O, JoinError>>
    requires table { (seat.old.table_id ≡ word.now.shared.table_id) × (word.now.shared.table_id.words ≡ 1) }
    requires rests { seat.old.me ≡ (joiner_with (resting word.now.shared.key placed (joiner_of seat.old.me.0)), []) }
    ensures seat { seat.new.table_id ≡ seat.old.table_id }
    ensures left { Emptied seat.new.me.1 }
    ensures answer { Cancels O.output_number (joiner_of seat.old.me.0) result (joiner_of seat.new.me.0) }
{
    let old = word_with(placed);
    let was = word.shared.compare_exchange::<Cancel>(seat, 0, old, 0);
    if was == JOIN_INTEREST {
        return None;
    }
    if was == JOIN_INTEREST | JOIN_WAKER {
        drop(take_waker(word, seat));
        return None;
    }
    Some(take_output(word, seat))
}

// Makes one step after the output was taken, which finds the word complete and returns nothing.
pub(super) fn try_seat<O: Outcome + Drop, W: Wakes + Drop>(
    word: &Word<O, W>,
    seat: &mut Seat<Option<Kept<O, W>>, View>,
    placed: Option<u64>,
) -> Option<Result<O, JoinError>>
    requires table { (seat.old.table_id ≡ word.now.shared.table_id) × (word.now.shared.table_id.words ≡ 1) }
    requires view { (seat.old.me.0 ≡ joiner_with (joiner_of seat.old.me.0)) × ((joiner_of seat.old.me.0).number ≡ word.now.shared.key) × ((joiner_of seat.old.me.0).cancelled ≡ false) × ((joiner_of seat.old.me.0).took ≡ true) }
    ensures seat { (seat.new.table_id ≡ seat.old.table_id) × (seat.new.me.1 ≡ seat.old.me.1) }
    ensures answer { Cancels O.output_number (joiner_of seat.old.me.0) result (joiner_of seat.new.me.0) }
{
    let old = word_with(placed);
    word.shared.compare_exchange::<Try>(seat, 0, old, 0);
    None
}
