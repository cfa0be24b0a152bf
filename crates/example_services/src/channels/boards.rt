// The shared value of the tasks.
ghost use Rattle.std.specs.Prelude.{refl, zero, suc, [], ◌∷◌, ◌++◌};
ghost use Rattle.mono_sync.specs.MpscRuns as channel;
ghost use Rattle.mono_sync.specs.SemaphoreRuns as semaphore;
ghost use Rattle.mono_sync.specs.Mpsc as messages;
ghost use Rattle.mono_sync.specs.Semaphores as permit;
ghost use Rattle.mono_sync.specs.Listed.{channel_some, semaphore_some};
ghost use Rattle.mono_sync.specs.Parts.{lists_parts, owes_parts, some_parts, first_keeps, second_keeps, nil_first, nil_second};
ghost use Rattle.example_services.specs.Boards.{numbers, permits};

use mono_rt::SharedState;
use mono_sync::mpsc::Channel;
use mono_sync::{Holds, Semaphore};

/// A channel of numbers, and a permit for each number that may be in transit.
#[derive(Drop)]
pub struct Board {
    /// The numbers.
    pub numbers: Channel<u64>,
    /// The permits.
    pub permits: Semaphore,
}

/// Calls of the channel and of the semaphore were made, and nothing else was done. What the channel owes comes first.
impl SharedState for Board {
    ghost leads = { λ a b. channel.Leads a.numbers b.numbers × semaphore.Leads a.permits b.permits };

    ghost lists = { lists_parts numbers permits messages.listed_by permit.listed_by };

    ghost waiting = { λ w. messages.waiting_in w.numbers ++ permit.waiting_in w.permits };

    ghost owes = { owes_parts numbers permits messages.listed_by permit.listed_by messages.owed_by permit.owed_by };

    fn next_owed(&mut self) -> Option<u64> {
        if let Some(task) = self.numbers.next_owed() {
            return Some(task);
        }
        match self.permits.next_owed() {
            None => None,
            Some(task) => Some(task),
        }
    }

    ghost leads_itself = { λ a. (channel.leads_itself a.numbers, semaphore.leads_itself a.permits) };

    ghost leads_on = { λ a b c p q. (channel.leads_on a.numbers b.numbers c.numbers p.0 q.0, semaphore.leads_on a.permits b.permits c.permits p.1 q.1) };

    ghost lists_some = { some_parts numbers permits messages.listed_by permit.listed_by messages.waiting_in permit.waiting_in channel_some semaphore_some };
}

impl Holds<Channel<u64>> for Board {
    ghost part = { λ w. w.numbers };

    ghost with_part = { λ w x. record w { numbers = x } };

    fn part_mut(&mut self) -> &mut Channel<u64> {
        &mut self.numbers
    }

    ghost part_with = { λ w x. refl };

    ghost place = { zero ∷ [] };

    ghost leads_with = { λ w x led. (led, semaphore.leads_itself w.permits) };

    ghost keeps_with = { λ me w x kept. first_keeps numbers permits messages.listed_by permit.listed_by me w (record w { numbers = x }) kept refl };

    ghost lists_part = { λ w p t is. is };

    ghost owes_part = { λ w none. nil_first (messages.owed_by w.numbers) (permit.owed_by w.permits) none };
}

impl Holds<Semaphore> for Board {
    ghost part = { λ w. w.permits };

    ghost with_part = { λ w x. record w { permits = x } };

    fn part_mut(&mut self) -> &mut Semaphore {
        &mut self.permits
    }

    ghost part_with = { λ w x. refl };

    ghost place = { suc zero ∷ [] };

    ghost leads_with = { λ w x led. (channel.leads_itself w.numbers, led) };

    ghost keeps_with = { λ me w x kept. second_keeps numbers permits messages.listed_by permit.listed_by me w (record w { permits = x }) refl kept };

    ghost lists_part = { λ w p t is. is };

    ghost owes_part = { λ w none. nil_second (messages.owed_by w.numbers) (permit.owed_by w.permits) none };
}
