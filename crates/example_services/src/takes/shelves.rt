// The shared value of the tasks.
ghost use Rattle.std.specs.Prelude.{[], refl};
ghost use Rattle.mono_sync.specs.Runs.{Leads, leads_itself, leads_on};
ghost use Rattle.mono_serve.specs.BucketCalls.{listed_in, waiting_in, owed_by, some_waits, Step};

use crate::takes::takers::Answer;
use mono_rt::SharedState;
use mono_serve::Buckets;
use mono_sync::Holds;

/// The answer of a task, and when it came.
#[derive(Clone, Copy)]
pub struct Note {
    /// The time in milliseconds.
    pub at_ms: u64,
    /// The number of the taker.
    pub name: u64,
    /// The answer.
    pub answer: Answer,
}

/// Buckets, and notes of the answers.
#[derive(Drop)]
pub struct Shelf {
    /// The buckets.
    pub buckets: Buckets,
    /// The notes, in the order in which they were made.
    pub notes: Vec<Note>,
}

/// Calls of the buckets were made, and notes were taken. The tasks wait in the buckets alone.
impl SharedState for Shelf {
    ghost leads = { λ a b. Leads Step a.buckets b.buckets };

    ghost lists = { λ a. listed_in a.buckets };

    ghost waiting = { λ a. waiting_in a.buckets };

    ghost owes = { λ a. owed_by a.buckets };

    #[inline(always)]
    fn next_owed(&mut self) -> Option<u64> {
        self.buckets.next_owed()
    }

    ghost leads_itself = { λ a. leads_itself Step a.buckets };

    ghost leads_on = { λ a b c. leads_on Step a.buckets b.buckets c.buckets };

    ghost lists_some = { λ a. some_waits a.buckets };
}

impl Holds<Buckets> for Shelf {
    ghost part = { λ w. w.buckets };

    ghost with_part = { λ w x. record w { buckets = x } };

    fn part_mut(&mut self) -> &mut Buckets {
        &mut self.buckets
    }

    ghost part_with = { λ w x. refl };

    ghost place = { [] };

    ghost leads_with = { λ w x led. led };

    ghost keeps_with = { λ me w x kept. kept };

    ghost lists_part = { λ w p t is. is };

    ghost owes_part = { λ w none. none };
}
