// A notice as a plain value.
ghost use Rattle.std.specs.Prelude.{◌≡◌, [], ℕ};
ghost use Rattle.mono_sync.specs.Runs.{Leads, leads_itself, leads_on};
ghost use Rattle.mono_sync.specs.NoticeRuns.{Step};
ghost use Rattle.mono_sync.specs.Notices.{owed_by, listed_by, waiting_in, alone_to, left_of, NotifiesOne, NotifiesAll, AwaitsFirst, AwaitsAgain, Awaits, GivesUp, LeavesLine, Pays, PaysOne, had_notice, was_alone};
ghost use Rattle.mono_sync.specs.Lines.{has_task};
ghost use Rattle.mono_sync.specs.Listed.{notice_some};
ghost use Rattle.mono_task.specs.Owed.{Keeps};

use crate::lines::{Coming, Line, Ticket, Waiter};
use mono_task::SharedState;
use std::alloc::Global;

/// A notice to one or to all of the tasks that wait for it, first come, first served.
///
/// A notice to one is kept for the next future that asks if each task that waits has one. At most one is kept once no task
/// waits.
#[derive(Drop)]
pub struct Notify {
    // How many notices to one no task was woken for. If no task waits, one of them is kept, and no more.
    pub(crate) pending: usize,
    pub(crate) line: Line,
    pub(crate) cleared: Cleared,
}

/// The last notice to all, by the tickets that were drawn before it.
#[derive(Clone, Copy)]
pub struct Cleared {
    // Tickets below this one were drawn before the notice to all before it.
    pub(crate) before: u64,
    // Of the tickets drawn since, those below this one had left the line, or had a notice to one: each was notified alone.
    pub(crate) alone: u64,
    // Tickets below this one were drawn before the last notice to all.
    pub(crate) next: u64,
}

/// The answer to a future that asks for a notice.
#[derive(Debug, Drop)]
pub enum Notifying {
    /// The future was notified.
    Notified,
    /// The allocation of a place in the line failed.
    Memory,
    /// The future waits from now on, with this ticket.
    Joined(Ticket),
    /// The future still waits.
    Waits,
}

/// A notice owes a wake to each task that waited at the last notice to all, and to one for each notice to one.
impl SharedState for Notify {
    ghost leads = { Leads Step };

    ghost names = { λ a. has_task a.line };

    ghost lists = { listed_by };

    ghost waiting = { waiting_in };

    ghost owes = { owed_by };

    fn next_owed(&mut self) -> Option<u64> {
        match self.pay() {
            None => None,
            Some(first) => Some(first.task),
        }
    }

    ghost leads_itself = { leads_itself Step };

    ghost leads_on = { leads_on Step };

    ghost lists_some = { notice_some };
}

impl Notify {
    /// Returns a notice that was not given and for which no task waits.
    pub fn new(alloc: Global) -> Notify
        ensures waiters { result.line.waiters.items ≡ [] }
        ensures granted { result.line.granted ≡ 0 }
        ensures kept { result.pending ≡ 0 }
        ensures tickets { (result.line.next ≡ 0) × (result.cleared ≡ record { before = 0; alone = 0; next = 0 }) }
    {
        Notify {
            pending: 0,
            line: Line::new(alloc),
            cleared: Cleared {
                before: 0,
                alone: 0,
                next: 0,
            },
        }
    }

    // Gives one notice more, unless one is kept beside one for each task that waits.
    fn give(&mut self)
        ensures { NotifiesOne self.old self.new }
    {
        if self.pending <= self.line.waiters.len() {
            self.pending += 1;
        }
    }

    /// Notifies the first task that waits and has no notice: it is to be woken. If each task that waits has one, the notice is
    /// kept.
    pub fn notify_one(&mut self)
        ensures answer { NotifiesOne self.old self.new }
        ensures keeps { (me : ℕ) → Keeps listed_by me self.old self.new }
    {
        self.give()
    }

    // Hands the notices to one out along the line, one to each task that waits since the last notice to all. Returns the
    // ticket of the first task that gets none, or the next one if there is none, and how many notices are left.
    fn shares(&self) -> (u64, usize)
        ensures to { result.0 ≡ alone_to self.now.cleared.next self.now.line.next self.now.pending self.now.line.waiters.items }
        ensures left { result.1 ≡ left_of self.now.cleared.next self.now.pending self.now.line.waiters.items }
    {
        let mut left = self.pending;
        for waiter in self.line.waiters.iter() {
            if left == 0 {
                return (waiter.ticket, 0);
            }
            if waiter.ticket >= self.cleared.next && !waiter.has_left {
                left -= 1;
            }
        }
        (self.line.next, left)
    }

    /// Notifies all tasks that wait: they are to be woken. A task that has a notice to one keeps it, to pass it on if its
    /// future is given up. No notice to all is kept for a future that asks later.
    pub fn notify_waiters(&mut self)
        ensures answer { NotifiesAll self.old self.new }
        ensures keeps { (me : ℕ) → Keeps listed_by me self.old self.new }
    {
        let (alone, left) = self.shares();
        self.cleared = Cleared {
            before: self.cleared.next,
            alone,
            next: self.line.next,
        };
        self.pending = left;
    }

    // Answers a future of this task that drew no ticket.
    fn ask_first(&mut self, me: u64) -> Notifying
        ensures { AwaitsFirst self.old me result self.new }
    {
        if self.pending > 0 && self.line.has_room(1) {
            self.pending = 0;
            return Notifying::Notified;
        }
        match self.line.join(me) {
            Ok(drawn) => Notifying::Joined(drawn),
            Err(_) => Notifying::Memory,
        }
    }

    // Answers a future of this task that drew this ticket.
    fn ask_again(&mut self, ticket: Ticket, me: u64) -> Notifying
        ensures { AwaitsAgain self.old ticket me result self.new }
    {
        match self.line.come(Some(ticket), me, 1) {
            Coming::Waits => Notifying::Waits,
            Coming::Free => Notifying::Notified,
            Coming::Full => {
                if ticket.number() < self.cleared.next {
                    return Notifying::Notified;
                }
                match self.line.join(me) {
                    Ok(drawn) => Notifying::Joined(drawn),
                    Err(_) => Notifying::Memory,
                }
            }
        }
    }

    // Answers a future of this task, or makes it wait.
    fn ask(&mut self, ticket: Option<Ticket>, me: u64) -> Notifying
        ensures { Awaits self.old ticket me result self.new }
    {
        match ticket {
            None => self.ask_first(me),
            Some(ticket) => {
                if ticket.number() < self.line.next {
                    return self.ask_again(ticket, me);
                }
                self.ask_first(me)
            }
        }
    }

    /// Answers a future of this task, or makes it wait. The ticket is the one that the future drew before.
    pub fn notified(&mut self, ticket: Option<Ticket>, me: u64) -> Notifying
        ensures answer { Awaits self.old ticket me result self.new }
        ensures keeps { Keeps listed_by me self.old self.new }
    {
        self.ask(ticket, me)
    }

    // Returns whether a future with this ticket that has left the line was notified alone.
    fn was_alone(&self, ticket: u64) -> bool
        ensures { result ≡ was_alone self.now ticket }
    {
        if ticket < self.cleared.next {
            return self.cleared.before <= ticket && ticket < self.cleared.alone;
        }
        ticket < self.line.next
    }

    // Returns whether a future with this ticket had a notice to one at the last notice to all.
    fn had_notice(&self, ticket: u64) -> bool
        ensures { result ≡ had_notice self.now ticket }
    {
        ticket < self.cleared.next && self.cleared.before <= ticket && ticket < self.cleared.alone
    }

    // Takes a future out of the line, and passes on a notice to one that it had at the last notice to all.
    fn leave(&mut self, ticket: Ticket, me: u64)
        ensures { LeavesLine self.old ticket me self.new }
    {
        self.line.leave(Some(ticket), me);
        if self.had_notice(ticket.number()) {
            self.give();
        }
    }

    // Takes a future out of the line, or passes its notice on.
    fn drop_out(&mut self, ticket: Option<Ticket>, me: u64)
        ensures { GivesUp self.old ticket me self.new }
    {
        if let Some(ticket) = ticket {
            if let Some(_) = self.line.holder_of(ticket) {
                self.leave(ticket, me);
                return;
            }
            if self.was_alone(ticket.number()) {
                self.give();
            }
        }
    }

    /// Takes a future out of the line, in a turn of this task. If it was notified by `notify_one`, the notice goes to the
    /// first task that waits and has none, or is kept. If two `notify_waiters` came since its first poll, it passes nothing
    /// on.
    pub fn give_up(&mut self, ticket: Option<Ticket>, me: u64)
        ensures answer { GivesUp self.old ticket me self.new }
        ensures keeps { Keeps listed_by me self.old self.new }
    {
        self.drop_out(ticket, me)
    }

    // Takes the first task out of the line for a notice to one, if there is one.
    fn pay_one(&mut self) -> Option<Waiter>
        ensures pays { PaysOne self.old result self.new }
        ensures cleared { self.new.cleared ≡ self.old.cleared }
    {
        if self.pending == 0 {
            return None;
        }
        match self.line.pop() {
            None => None,
            Some(first) => {
                if !first.has_left {
                    self.pending -= 1;
                }
                Some(first)
            }
        }
    }

    // Takes the first task out of the line, if it waited at the last notice to all, or there is a notice to one.
    fn pay(&mut self) -> Option<Waiter>
        ensures { Pays self.old result self.new }
    {
        if self.line.starts_below(self.cleared.next) {
            return self.line.pop();
        }
        self.pay_one()
    }
}
