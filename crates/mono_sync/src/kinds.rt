// Tables of all kinds in a row, as one shared value.
ghost use Rattle.std.specs.Prelude.{◌≡◌, refl, false, zero, suc, [], ◌∷◌};
ghost use Rattle.mono_sync.specs.Parts.{nil_first};
ghost use Rattle.mono_sync.specs.Boths.{lists_both, owes_two, keeps_first, keeps_second, none_first, none_second};
ghost use Rattle.mono_sync.specs.Many.{lists_each, tasks_each};
ghost use Rattle.mono_sync.specs.Mpsc as channel;
ghost use Rattle.mono_sync.specs.Oneshot as oneshot;
ghost use Rattle.mono_sync.specs.Watches as watch;
ghost use Rattle.mono_sync.specs.Semaphores as semaphore;
ghost use Rattle.mono_sync.specs.Notices as notice;

use crate::boths::Both;
use crate::mpsc::Channel;
use crate::notices::Notify;
use crate::oneshot::Oneshot;
use crate::owns::Own;
use crate::parts::Holds;
use crate::semaphores::Semaphore;
use crate::tables::Many;
use crate::watch::Watch;
use mono_task::SharedState;
use std::alloc::Global;

/// A shared value for most programs: a value of your own (`S`), and tables of channels of `M`, oneshot channels of `R`,
/// watched values of `V`, semaphores and notices, all made at run time under keys.
pub type Tables<S, M, R, V> = Both<
    Own<S>,
    Both<
        Many<Channel<M>>,
        Both<Many<Oneshot<R>>, Both<Many<Watch<V>>, Both<Many<Semaphore>, Both<Many<Notify>, ()>>>>,
    >,
>;

/// Returns empty tables beside a value of your own.
pub fn empty_tables<S, M, R, V>(alloc: Global, own: S) -> Tables<S, M, R, V>
    ensures own { result.first.value ≡ own }
    ensures channels { result.second.first ≡ [] }
    ensures oneshots { result.second.second.first ≡ [] }
    ensures watches { result.second.second.second.first ≡ [] }
    ensures semaphores { result.second.second.second.second.first ≡ [] }
    ensures notices { result.second.second.second.second.second.first ≡ [] }
{
    let notices = Both {
        first: Many::new(alloc),
        second: (),
    };
    let semaphores = Both {
        first: Many::new(alloc),
        second: notices,
    };
    let watches = Both {
        first: Many::new(alloc),
        second: semaphores,
    };
    let oneshots = Both {
        first: Many::new(alloc),
        second: watches,
    };
    let channels = Both {
        first: Many::new(alloc),
        second: oneshots,
    };
    Both {
        first: Own { value: own },
        second: channels,
    }
}

impl<S, Z: SharedState> Holds<Own<S>> for Both<Own<S>, Z> {
    ghost part = { λ w. w.first };

    ghost with_part = { λ w x. record w { first = x } };

    #[inline(always)]
    fn part_mut(&mut self) -> &mut Own<S> {
        self.first_mut()
    }

    ghost part_with = { λ w x. refl };

    ghost place = { zero ∷ [] };

    ghost leads_with = { λ w x led. (led, Z.leads_itself w.second) };

    ghost keeps_with = { λ me w x kept. keeps_first (λ a p t. false) Z.lists me w x kept };

    ghost lists_part = { λ w p t is. is };

    ghost owes_part = { λ w none. nil_first [] (Z.owes w.second) none };
}

impl<A: SharedState, M, Z: SharedState> Holds<Many<Channel<M>>>
    for Both<A, Both<Many<Channel<M>>, Z>> {
    ghost part = { λ w. w.second.first };

    ghost with_part = { λ w x. record w { second = record w.second { first = x } } };

    #[inline(always)]
    fn part_mut(&mut self) -> &mut Many<Channel<M>> {
        self.second_mut().first_mut()
    }

    ghost part_with = { λ w x. refl };

    ghost place = { suc zero ∷ zero ∷ [] };

    ghost leads_with = { λ w x led. (A.leads_itself w.first, (led, Z.leads_itself w.second.second)) };

    ghost keeps_with = { λ me w x kept. keeps_second A.lists (lists_both (lists_each channel.listed_by) Z.lists) me w _ (keeps_first (lists_each channel.listed_by) Z.lists me w.second x kept) };

    ghost lists_part = { λ w p t is. is };

    ghost owes_part = { λ w none. none_first (tasks_each channel.owed_by) Z.owes w.second (none_second A.owes (owes_two (tasks_each channel.owed_by) Z.owes) w none) };
}

impl<A: SharedState, B: SharedState, R, Z: SharedState> Holds<Many<Oneshot<R>>>
    for Both<A, Both<B, Both<Many<Oneshot<R>>, Z>>> {
    ghost part = { λ w. w.second.second.first };

    ghost with_part = { λ w x. record w { second = record w.second { second = record w.second.second { first = x } } } };

    #[inline(always)]
    fn part_mut(&mut self) -> &mut Many<Oneshot<R>> {
        self.second_mut().second_mut().first_mut()
    }

    ghost part_with = { λ w x. refl };

    ghost place = { suc zero ∷ suc zero ∷ zero ∷ [] };

    ghost leads_with = { λ w x led. (A.leads_itself w.first, (B.leads_itself w.second.first, (led, Z.leads_itself w.second.second.second))) };

    ghost keeps_with = { λ me w x kept. keeps_second A.lists (lists_both B.lists (lists_both (lists_each oneshot.listed_by) Z.lists)) me w _ (keeps_second B.lists (lists_both (lists_each oneshot.listed_by) Z.lists) me w.second _ (keeps_first (lists_each oneshot.listed_by) Z.lists me w.second.second x kept)) };

    ghost lists_part = { λ w p t is. is };

    ghost owes_part = { λ w none. none_first (tasks_each oneshot.owed_by) Z.owes w.second.second (none_second B.owes (owes_two (tasks_each oneshot.owed_by) Z.owes) w.second (none_second A.owes (owes_two B.owes (owes_two (tasks_each oneshot.owed_by) Z.owes)) w none)) };
}

impl<A: SharedState, B: SharedState, D: SharedState, V, Z: SharedState> Holds<Many<Watch<V>>>
    for Both<A, Both<B, Both<D, Both<Many<Watch<V>>, Z>>>> {
    ghost part = { λ w. w.second.second.second.first };

    ghost with_part = { λ w x. record w { second = record w.second { second = record w.second.second { second = record w.second.second.second { first = x } } } } };

    #[inline(always)]
    fn part_mut(&mut self) -> &mut Many<Watch<V>> {
        self.second_mut().second_mut().second_mut().first_mut()
    }

    ghost part_with = { λ w x. refl };

    ghost place = { suc zero ∷ suc zero ∷ suc zero ∷ zero ∷ [] };

    ghost leads_with = { λ w x led. (A.leads_itself w.first, (B.leads_itself w.second.first, (D.leads_itself w.second.second.first, (led, Z.leads_itself w.second.second.second.second)))) };

    ghost keeps_with = { λ me w x kept. keeps_second A.lists (lists_both B.lists (lists_both D.lists (lists_both (lists_each watch.listed_by) Z.lists))) me w _ (keeps_second B.lists (lists_both D.lists (lists_both (lists_each watch.listed_by) Z.lists)) me w.second _ (keeps_second D.lists (lists_both (lists_each watch.listed_by) Z.lists) me w.second.second _ (keeps_first (lists_each watch.listed_by) Z.lists me w.second.second.second x kept))) };

    ghost lists_part = { λ w p t is. is };

    ghost owes_part = { λ w none. none_first (tasks_each watch.owed_by) Z.owes w.second.second.second (none_second D.owes (owes_two (tasks_each watch.owed_by) Z.owes) w.second.second (none_second B.owes (owes_two D.owes (owes_two (tasks_each watch.owed_by) Z.owes)) w.second (none_second A.owes (owes_two B.owes (owes_two D.owes (owes_two (tasks_each watch.owed_by) Z.owes))) w none))) };
}

impl<A: SharedState, B: SharedState, D: SharedState, E: SharedState, Z: SharedState> Holds<
    Many<Semaphore>,
> for Both<A, Both<B, Both<D, Both<E, Both<Many<Semaphore>, Z>>>>> {
    ghost part = { λ w. w.second.second.second.second.first };

    ghost with_part = { λ w x. record w { second = record w.second { second = record w.second.second { second = record w.second.second.second { second = record w.second.second.second.second { first = x } } } } } };

    #[inline(always)]
    fn part_mut(&mut self) -> &mut Many<Semaphore> {
        self.second_mut()
            .second_mut()
            .second_mut()
            .second_mut()
            .first_mut()
    }

    ghost part_with = { λ w x. refl };

    ghost place = { suc zero ∷ suc zero ∷ suc zero ∷ suc zero ∷ zero ∷ [] };

    ghost leads_with = { λ w x led. (A.leads_itself w.first, (B.leads_itself w.second.first, (D.leads_itself w.second.second.first, (E.leads_itself w.second.second.second.first, (led, Z.leads_itself w.second.second.second.second.second))))) };

    ghost keeps_with = { λ me w x kept. keeps_second A.lists (lists_both B.lists (lists_both D.lists (lists_both E.lists (lists_both (lists_each semaphore.listed_by) Z.lists)))) me w _ (keeps_second B.lists (lists_both D.lists (lists_both E.lists (lists_both (lists_each semaphore.listed_by) Z.lists))) me w.second _ (keeps_second D.lists (lists_both E.lists (lists_both (lists_each semaphore.listed_by) Z.lists)) me w.second.second _ (keeps_second E.lists (lists_both (lists_each semaphore.listed_by) Z.lists) me w.second.second.second _ (keeps_first (lists_each semaphore.listed_by) Z.lists me w.second.second.second.second x kept)))) };

    ghost lists_part = { λ w p t is. is };

    ghost owes_part = { λ w none. none_first (tasks_each semaphore.owed_by) Z.owes w.second.second.second.second (none_second E.owes (owes_two (tasks_each semaphore.owed_by) Z.owes) w.second.second.second (none_second D.owes (owes_two E.owes (owes_two (tasks_each semaphore.owed_by) Z.owes)) w.second.second (none_second B.owes (owes_two D.owes (owes_two E.owes (owes_two (tasks_each semaphore.owed_by) Z.owes))) w.second (none_second A.owes (owes_two B.owes (owes_two D.owes (owes_two E.owes (owes_two (tasks_each semaphore.owed_by) Z.owes)))) w none)))) };
}

impl<
    A: SharedState,
    B: SharedState,
    D: SharedState,
    E: SharedState,
    G: SharedState,
    Z: SharedState,
> Holds<Many<Notify>> for Both<A, Both<B, Both<D, Both<E, Both<G, Both<Many<Notify>, Z>>>>>> {
    ghost part = { λ w. w.second.second.second.second.second.first };

    ghost with_part = { λ w x. record w { second = record w.second { second = record w.second.second { second = record w.second.second.second { second = record w.second.second.second.second { second = record w.second.second.second.second.second { first = x } } } } } } };

    #[inline(always)]
    fn part_mut(&mut self) -> &mut Many<Notify> {
        self.second_mut()
            .second_mut()
            .second_mut()
            .second_mut()
            .second_mut()
            .first_mut()
    }

    ghost part_with = { λ w x. refl };

    ghost place = { suc zero ∷ suc zero ∷ suc zero ∷ suc zero ∷ suc zero ∷ zero ∷ [] };

    ghost leads_with = { λ w x led. (A.leads_itself w.first, (B.leads_itself w.second.first, (D.leads_itself w.second.second.first, (E.leads_itself w.second.second.second.first, (G.leads_itself w.second.second.second.second.first, (led, Z.leads_itself w.second.second.second.second.second.second)))))) };

    ghost keeps_with = { λ me w x kept. keeps_second A.lists (lists_both B.lists (lists_both D.lists (lists_both E.lists (lists_both G.lists (lists_both (lists_each notice.listed_by) Z.lists))))) me w _ (keeps_second B.lists (lists_both D.lists (lists_both E.lists (lists_both G.lists (lists_both (lists_each notice.listed_by) Z.lists)))) me w.second _ (keeps_second D.lists (lists_both E.lists (lists_both G.lists (lists_both (lists_each notice.listed_by) Z.lists))) me w.second.second _ (keeps_second E.lists (lists_both G.lists (lists_both (lists_each notice.listed_by) Z.lists)) me w.second.second.second _ (keeps_second G.lists (lists_both (lists_each notice.listed_by) Z.lists) me w.second.second.second.second _ (keeps_first (lists_each notice.listed_by) Z.lists me w.second.second.second.second.second x kept))))) };

    ghost lists_part = { λ w p t is. is };

    ghost owes_part = { λ w none. none_first (tasks_each notice.owed_by) Z.owes w.second.second.second.second.second (none_second G.owes (owes_two (tasks_each notice.owed_by) Z.owes) w.second.second.second.second (none_second E.owes (owes_two G.owes (owes_two (tasks_each notice.owed_by) Z.owes)) w.second.second.second (none_second D.owes (owes_two E.owes (owes_two G.owes (owes_two (tasks_each notice.owed_by) Z.owes))) w.second.second (none_second B.owes (owes_two D.owes (owes_two E.owes (owes_two G.owes (owes_two (tasks_each notice.owed_by) Z.owes)))) w.second (none_second A.owes (owes_two B.owes (owes_two D.owes (owes_two E.owes (owes_two G.owes (owes_two (tasks_each notice.owed_by) Z.owes))))) w none))))) };
}
