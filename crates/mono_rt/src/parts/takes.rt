// What waits in the inbox is taken, once there is room for all that its wakes need.
ghost use Rattle.std.specs.Prelude.{◌≡◌, ◌≤◌, ◌+◌, ◌++◌, ◌∷◌, [], IfSome, IfNone, vec_capacity};
ghost use Rattle.mono_inbox.specs.State.{with_list};
ghost use Rattle.mono_rt.specs.Drains.{IsReady};
ghost use Rattle.mono_rt.specs.Journals.{HasPlaces};

use crate::parts::journals::Journal;
use mono_inbox::InboxState;
use mono_machine::List;
use mono_model::{History, Tells};
use std::alloc::Global;

/// The tasks that a drain took from the inbox, and the list for those of them that it wakes.
#[derive(Drop)]
pub(crate) struct Taken {
    pub(crate) tasks: Vec<u64>,
    pub(crate) woken: Vec<u64>,
}

/// The tasks that a drain took, as an entry of a history.
struct TakenTasks;

impl Tells<Taken, List<u64>> for TakenTasks {
    ghost entry = { λ taken. taken.tasks.items };
}

/// Takes all tasks that wait, and adds their list to the lists that were taken (`told`): exactly what was listed under the
/// lock. Takes none if out of memory: the room for the wakes and for their entries is made first.
#[inline(always)]
#[tactic(auto, using(crate::proofs::RoundLemmas::no_queue))]
pub(crate) fn take_waiting(
    alloc: Global,
    state: &mut InboxState,
    journal: &mut Journal,
    lists: &mut History<List<u64>>,
) -> Option<Taken>
    ensures ready { IfSome result (λ taken. IsReady taken journal.new) }
    ensures taken { IfSome result (λ taken. taken.tasks.items ≡ state.old.waiting) }
    ensures told { IfSome result (λ taken. lists.new.entries ≡ lists.old.entries ++ state.old.waiting ∷ []) }
    ensures untold { IfNone result (lists.new.entries ≡ lists.old.entries) }
    ensures emptied { IfSome result (λ taken. state.new ≡ with_list state.old []) }
    ensures refused { IfNone result (state.new ≡ state.old) }
    ensures history { journal.new.history.entries ≡ journal.old.history.entries }
    ensures full { journal.new.is_full ≡ journal.old.is_full }
    ensures held { journal.new.entries.held ≡ journal.old.entries.held }
{
    let count = state.waiting();
    if count == 0 {
        return take_none(alloc, state, journal, lists);
    }
    match open_drain(alloc, journal, count) {
        None => None,
        Some(mut taken) => {
            state.drain(&mut taken.tasks);
            *lists = lists.told::<Taken, TakenTasks>(&taken);
            Some(taken)
        }
    }
}

// Takes the empty list of an inbox in which no task waits, once there is room for the entry of the drain.
#[inline(always)]
#[tactic(auto, using(crate::proofs::DrainLemmas::none_left))]
fn take_none(
    alloc: Global,
    state: &mut InboxState,
    journal: &mut Journal,
    lists: &mut History<List<u64>>,
) -> Option<Taken>
    requires { state.old.waiting ≡ [] }
    ensures ready { IfSome result (λ taken. IsReady taken journal.new) }
    ensures taken { IfSome result (λ taken. taken.tasks.items ≡ state.old.waiting) }
    ensures told { IfSome result (λ taken. lists.new.entries ≡ lists.old.entries ++ state.old.waiting ∷ []) }
    ensures untold { IfNone result (lists.new.entries ≡ lists.old.entries) }
    ensures emptied { IfSome result (λ taken. state.new ≡ with_list state.old []) }
    ensures refused { IfNone result (state.new ≡ state.old) }
    ensures history { journal.new.history.entries ≡ journal.old.history.entries }
    ensures full { journal.new.is_full ≡ journal.old.is_full }
    ensures held { journal.new.entries.held ≡ journal.old.entries.held }
{
    match journal.reserve(1) {
        Err(_) => None,
        Ok(()) => {
            let none = Taken {
                tasks: Vec::new(alloc),
                woken: Vec::new(alloc),
            };
            *lists = lists.told::<Taken, TakenTasks>(&none);
            Some(none)
        }
    }
}

// Makes room for the entries of so many wakes, and for both lists.
#[inline(never)]
fn open_drain(alloc: Global, journal: &mut Journal, count: usize) -> Option<Taken>
    ensures places { IfSome result (λ taken. HasPlaces journal.new (count + 1)) }
    ensures tasks { IfSome result (λ taken. (taken.tasks.items ≡ []) × (count ≤ vec_capacity taken.tasks)) }
    ensures woken { IfSome result (λ taken. (taken.woken.items ≡ []) × (count ≤ vec_capacity taken.woken)) }
    ensures history { journal.new.history.entries ≡ journal.old.history.entries }
    ensures full { journal.new.is_full ≡ journal.old.is_full }
    ensures held { journal.new.entries.held ≡ journal.old.entries.held }
{
    match (
        Vec::with_capacity(alloc, count),
        Vec::with_capacity(alloc, count),
    ) {
        (Ok(tasks), Ok(woken)) => match journal.reserve(count + 1) {
            Err(_) => None,
            Ok(()) => Some(Taken { tasks, woken }),
        },
        _ => None,
    }
}
