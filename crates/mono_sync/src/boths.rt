// Two shared values as one.
ghost use Rattle.std.specs.Prelude.{◌++◌, ◌||◌, ◌≡◌};
ghost use Rattle.std.specs.Borrow.{sem};
ghost use Rattle.mono_sync.specs.Parts.{lists_parts, owes_parts, some_parts};
ghost use Rattle.mono_sync.specs.Boths.{first_of, second_of};

use mono_task::SharedState;

/// Two shared values as one. What the first owes comes first.
///
/// Values in a row, each the first of a `Both` whose second is the rest, hold each of their parts ([`Tables`](crate::Tables)).
#[derive(Drop)]
pub struct Both<A, B> {
    /// The first value.
    pub first: A,
    /// The second value.
    pub second: B,
}

/// The values are led each by itself.
impl<A: SharedState, B: SharedState> SharedState for Both<A, B> {
    ghost leads = { λ a b. A.leads a.first b.first × B.leads a.second b.second };

    ghost names = { λ w t. A.names w.first t || B.names w.second t };

    ghost lists = { lists_parts first_of second_of A.lists B.lists };

    ghost waiting = { λ w. A.waiting w.first ++ B.waiting w.second };

    ghost owes = { owes_parts first_of second_of A.lists B.lists A.owes B.owes };

    #[inline(always)]
    fn next_owed(&mut self) -> Option<u64> {
        if let Some(task) = self.first.next_owed() {
            return Some(task);
        }
        self.second.next_owed()
    }

    ghost leads_itself = { λ a. (A.leads_itself a.first, B.leads_itself a.second) };

    ghost leads_on = { λ a b c p q. (A.leads_on a.first b.first c.first p.0 q.0, B.leads_on a.second b.second c.second p.1 q.1) };

    ghost lists_some = { some_parts first_of second_of A.lists B.lists A.waiting B.waiting A.lists_some B.lists_some };
}

impl<A, B> Both<A, B> {
    ghost use Rattle.mono_sync.specs.BothLends.{first_lends, second_lends};

    /// Returns the first value, to be read and changed (`writes_back`).
    #[inline(always)]
    pub fn first_mut(&mut self) -> &mut A
        ensures* writes_back { sem 𝓛 (first_lends A.row B.row self.entry result) }
        ensures value { result.now ≡ self.old.first }
    {
        &mut self.first
    }

    /// Returns the second value, to be read and changed (`writes_back`).
    #[inline(always)]
    pub fn second_mut(&mut self) -> &mut B
        ensures* writes_back { sem 𝓛 (second_lends A.row B.row self.entry result) }
        ensures value { result.now ≡ self.old.second }
    {
        &mut self.second
    }
}
