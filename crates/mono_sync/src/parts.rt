// A shared value that has a channel, a semaphore or the like as a part.
ghost use Rattle.std.specs.Prelude.{◌≡◌, ℕ, true, List, [], ◌++◌, refl};
ghost use Rattle.std.specs.Borrow.{sem, Lends};
ghost use Rattle.mono_task.specs.Owed.{Keeps};

use mono_task::SharedState;

/// A shared value that has an `X` as a part: the value itself, or a field of it.
pub trait Holds<X: SharedState>: SharedState {
    // The part.
    ghost part: { Self → X };

    // The value with this part in its place.
    ghost with_part: { Self → X → Self };

    /// Returns the part, to be read and changed. The last value under the reference is the part afterwards, and nothing
    /// else of the value changes (`writes_back`).
    fn part_mut(&mut self) -> &mut X
        ensures* writes_back { sem 𝓛 (Lends Self.row X.row self.entry result (with_part self.old)) }
        ensures value { result.now ≡ part self.old };

    ghost part_with: { (w : Self) (x : X) → part (with_part w x) ≡ x };

    // The numbers before the places of the part, in the whole.
    ghost place: { List ℕ };

    // The value is led if its part is led.
    ghost leads_with: { (w : Self) (x : X) → X.leads (part w) x → Self.leads w (with_part w x) };

    // The value keeps its listed tasks if its part does.
    ghost keeps_with: { (me : ℕ) (w : Self) (x : X) → Keeps X.lists me (part w) x → Keeps Self.lists me w (with_part w x) };

    // Whom the part lists, the value lists.
    ghost lists_part: { (w : Self) (p : List ℕ) (t : ℕ) → X.lists (part w) p t ≡ true → Self.lists w (place ++ p) t ≡ true };

    // The value owes nothing only if its part owes nothing.
    ghost owes_part: { (w : Self) → Self.owes w ≡ [] → X.owes (part w) ≡ [] };
}

/// A shared value that lists each task that its part lists.
pub trait Lists<X: SharedState>: Holds<X> {
    ghost names_part: { (w : Self) (t : ℕ) → X.names (Self.part w) t ≡ true → Self.names w t ≡ true };
}

/// A shared value with one part.
#[derive(Drop)]
pub struct Only<X> {
    /// The part.
    pub part: X,
}

/// The value is led as its part is.
impl<X: SharedState> SharedState for Only<X> {
    ghost leads = { λ a b. X.leads a.part b.part };

    ghost names = { λ a. X.names a.part };

    ghost lists = { λ a. X.lists a.part };

    ghost waiting = { λ a. X.waiting a.part };

    ghost owes = { λ a. X.owes a.part };

    #[inline(always)]
    fn next_owed(&mut self) -> Option<u64> {
        self.part.next_owed()
    }

    ghost leads_itself = { λ a. X.leads_itself a.part };

    ghost leads_on = { λ a b c. X.leads_on a.part b.part c.part };

    ghost lists_some = { λ a. X.lists_some a.part };
}

impl<X: SharedState> Holds<X> for Only<X> {
    ghost part = { λ w. w.part };

    ghost with_part = { λ w x. record { part = x } };

    fn part_mut(&mut self) -> &mut X {
        &mut self.part
    }

    ghost part_with = { λ w x. refl };

    ghost place = { [] };

    ghost leads_with = { λ w x led. led };

    ghost keeps_with = { λ me w x kept. kept };

    ghost lists_part = { λ w p t is. is };

    ghost owes_part = { λ w none. none };
}

impl<X: SharedState> Lists<X> for Only<X> {
    ghost names_part = { λ w t is. is };
}
