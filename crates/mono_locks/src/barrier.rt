// A barrier, as a plain value.
ghost use Rattle.std.specs.Prelude.{◌≡◌, [], ℕ, max};
ghost use Rattle.mono_sync.specs.Runs.{Leads, leads_itself, leads_on};
ghost use Rattle.mono_locks.specs.BarrierRuns.{Step};
ghost use Rattle.mono_locks.specs.Barriers.{owed_by, listed_by, waiting_in, Comes, Stays, Arrives, GivesUp, Pays};
ghost use Rattle.mono_locks.specs.Listed.{barrier_some};
ghost use Rattle.mono_locks.specs.Queues.{has_task};
ghost use Rattle.mono_task.specs.Owed.{Keeps};

pub use crate::barrier_calls::{WaitCall, WaitFuture, wait};
use crate::queues::{Asked, Entry, Queue, Ticket};
use mono_task::SharedState;
use std::alloc::Global;
use std::cmp::max;

/// A barrier: futures wait at it until as many have come as it has parties. Then all go on, and it starts anew.
///
/// The future that comes last is the leader. A future that is given up while the barrier is closed does not count any more.
#[derive(Drop)]
pub struct Barrier {
    pub(crate) parties: usize,
    // How many futures have come and wait since the barrier opened last.
    pub(crate) arrived: usize,
    // Tickets below this one were drawn before the barrier opened last.
    pub(crate) cleared: u64,
    pub(crate) queue: Queue,
}

/// The answer to a future that waited at a barrier.
#[derive(Clone, Copy, Debug)]
pub struct BarrierWaitResult {
    pub(crate) is_leader: bool,
}

impl BarrierWaitResult {
    /// Returns whether the future came last and opened the barrier.
    pub fn is_leader(&self) -> bool
        ensures { result ≡ self.now.is_leader }
    {
        self.is_leader
    }
}

/// A barrier owes a wake to each task that waited when it opened.
impl SharedState for Barrier {
    ghost leads = { Leads Step };

    ghost names = { λ a. has_task a.queue };

    ghost lists = { listed_by };

    ghost waiting = { waiting_in };

    ghost owes = { owed_by };

    fn next_owed(&mut self) -> Option<u64> {
        match self.pay() {
            None => None,
            Some(first) => Some(first.task),
        }
    }

    ghost leads_itself = { leads_itself Step };

    ghost leads_on = { leads_on Step };

    ghost lists_some = { barrier_some };
}

impl Barrier {
    /// Returns a barrier for this many parties. One for none is one for a single party.
    pub fn new(alloc: Global, parties: usize) -> Barrier
        ensures parties { result.parties ≡ max parties 1 }
        ensures arrived { result.arrived ≡ 0 }
        ensures waiters { result.queue.waiters.items ≡ [] }
        ensures tickets { (result.queue.next ≡ 0) × (result.cleared ≡ 0) }
    {
        Barrier {
            parties: max(parties, 1),
            arrived: 0,
            cleared: 0,
            queue: Queue::new(alloc),
        }
    }

    /// Returns how many futures have come and wait since the barrier opened last.
    pub fn arrived(&self) -> usize
        ensures { result ≡ self.now.arrived }
    {
        self.arrived
    }

    // Takes the first task out of the queue, if it waited when the barrier opened.
    fn pay(&mut self) -> Option<Entry>
        ensures { Pays self.old result self.new }
    {
        self.queue.take_below(false, self.cleared)
    }

    // Opens the barrier for the last future that is missing, or makes it wait with the others.
    fn come(&mut self, me: u64) -> Asked<BarrierWaitResult>
        ensures { Comes self.old me result self.new }
    {
        if self.arrived >= self.parties.saturating_sub(1) {
            self.arrived = 0;
            self.cleared = self.queue.next;
            return Asked::Got(BarrierWaitResult { is_leader: true });
        }
        match self.queue.ask(None, me, 1, 0) {
            Asked::Got(()) => unreachable!(),
            Asked::Memory => Asked::Memory,
            Asked::Joined(drawn) => {
                self.arrived += 1;
                Asked::Joined(drawn)
            }
            Asked::Waits => unreachable!(),
        }
    }

    // Lets a future go on if the barrier opened since it came, or makes it wait.
    fn stay(&mut self, ticket: Ticket, me: u64) -> Asked<BarrierWaitResult>
        ensures { Stays self.old ticket me result self.new }
    {
        if ticket.number() < self.cleared {
            self.queue.leave(Some(ticket), me, 1);
            return Asked::Got(BarrierWaitResult { is_leader: false });
        }
        match self.queue.ask(Some(ticket), me, 1, 0) {
            Asked::Got(()) => unreachable!(),
            Asked::Memory => {
                self.arrived = self.arrived.saturating_sub(1);
                Asked::Memory
            }
            Asked::Joined(drawn) => Asked::Joined(drawn),
            Asked::Waits => Asked::Waits,
        }
    }

    // Answers a future of this task, or makes it wait.
    fn ask(&mut self, ticket: Option<Ticket>, me: u64) -> Asked<BarrierWaitResult>
        ensures { Arrives self.old ticket me result self.new }
    {
        match ticket {
            None => self.come(me),
            Some(ticket) => self.stay(ticket, me),
        }
    }

    /// Answers a future of this task, or makes it wait. The ticket is the one that the future drew before. A future without
    /// one comes now, and opens the barrier if it is the last that is missing.
    pub fn wait(&mut self, ticket: Option<Ticket>, me: u64) -> Asked<BarrierWaitResult>
        ensures answer { Arrives self.old ticket me result self.new }
        ensures keeps { Keeps listed_by me self.old self.new }
    {
        self.ask(ticket, me)
    }

    // Takes a future out of the queue. It counts no more, unless the barrier opened since it came.
    fn leave(&mut self, ticket: Option<Ticket>, me: u64)
        ensures { GivesUp self.old ticket me self.new }
    {
        if let Some(drawn) = ticket {
            if drawn.number() >= self.cleared {
                self.arrived = self.arrived.saturating_sub(1);
            }
        }
        self.queue.leave(ticket, me, 1);
    }

    /// Takes a future out of the queue, in a turn of this task. It does not count any more, unless the barrier opened since
    /// it came.
    pub fn give_up(&mut self, ticket: Option<Ticket>, me: u64)
        ensures answer { GivesUp self.old ticket me self.new }
        ensures keeps { Keeps listed_by me self.old self.new }
    {
        self.leave(ticket, me);
    }
}
