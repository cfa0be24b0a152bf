// A cell that is set once, as a plain value.
ghost use Rattle.std.specs.Prelude.{◌≡◌, [], false, ℕ, length};
ghost use Rattle.std.specs.declared.option.Option.TheVariants.{None};
ghost use Rattle.std.specs.Option.{option_copied};
ghost use Rattle.mono_sync.specs.Runs.{Leads, leads_itself, leads_on};
ghost use Rattle.mono_locks.specs.Listed.{once_cell_some};
ghost use Rattle.mono_locks.specs.Mutexes.{has_none};
ghost use Rattle.mono_locks.specs.OnceCellRuns.{Step};
ghost use Rattle.mono_locks.specs.OnceCells.{room_of, has_some, owed_by, listed_by, waiting_in, TakesTurn, Sets, Inits, Finishes, GivesBack, GivesUp, Pays};
ghost use Rattle.mono_locks.specs.Queues.{has_task, Asks, IfGot};
ghost use Rattle.mono_task.specs.Owed.{Keeps};

pub use crate::once_calls::{InitCall, InitFuture, finish, get_or_init, give_back, set};
use crate::queues::{Asked, Entry, Queue, Ticket};
use mono_task::SharedState;
use std::alloc::Global;
use std::marker::PhantomData;
use thiserror::Error;

/// A cell that is set once. One task at a time makes its value, also over its waits, and others wait for it.
///
/// The task that is to make the value has a turn (`Init::Turn`), and ends it by `finish` or `give_back`; then the next task
/// takes over. The language has no drop that reaches the cell: a turn that is dropped or forgotten keeps the others
/// waiting, as `is_initializing` tells.
#[derive(Drop)]
pub struct OnceCell<T> {
    pub(crate) value: Option<T>,
    // Whether a turn is out.
    pub(crate) is_initializing: bool,
    pub(crate) queue: Queue,
}

/// The turn to make the value of a cell. Only a cell makes it.
#[derive(Drop)]
pub struct InitTurn<T> {
    value: PhantomData<T>,
}

/// The answer to a future that gets the value or makes it.
#[derive(Drop)]
pub enum Init<T> {
    /// The cell was set.
    Set,
    /// The task is to make the value.
    Turn(InitTurn<T>),
}

/// The reason why a cell was not set, with the value.
#[derive(Debug, Drop, Error)]
pub enum SetError<T> {
    /// The cell was set before.
    #[error("AlreadyInitializedError")]
    AlreadyInitialized(T),
    /// A task makes the value, or waits for its turn, or is to have the next one.
    #[error("InitializingError")]
    Initializing(T),
}

/// A cell owes a wake to all tasks that wait once it was set, and to the first one if the turn is free for it.
impl<T> SharedState for OnceCell<T> {
    ghost leads = { Leads Step };

    ghost names = { λ a. has_task a.queue };

    ghost lists = { listed_by };

    ghost waiting = { waiting_in };

    ghost owes = { owed_by };

    fn next_owed(&mut self) -> Option<u64> {
        match self.pay() {
            None => None,
            Some(first) => Some(first.task),
        }
    }

    ghost leads_itself = { leads_itself Step };

    ghost leads_on = { leads_on Step };

    ghost lists_some = { once_cell_some };
}

impl<T> OnceCell<T> {
    // Returns how many tasks may have the turn.
    fn room(&self) -> usize
        ensures { result ≡ room_of self.now.is_initializing }
    {
        if self.is_initializing {
            return 0;
        }
        1
    }

    // Takes the first task out of the queue, if the turn is free for it or the cell was set.
    fn pay(&mut self) -> Option<Entry>
        ensures { Pays self.old result self.new }
    {
        let is_set = self.value.is_some();
        let room = self.room();
        self.queue.take(is_set, room)
    }
}

impl<T: Drop> OnceCell<T> {
    /// Returns a cell that was not set.
    pub fn new(alloc: Global) -> OnceCell<T>
        ensures value { result.value ≡ None }
        ensures turns { result.is_initializing ≡ false }
        ensures waiters { result.queue.waiters.items ≡ [] }
        ensures granted { result.queue.granted ≡ 0 }
        ensures tickets { result.queue.next ≡ 0 }
    {
        OnceCell {
            value: None,
            is_initializing: false,
            queue: Queue::new(alloc),
        }
    }

    /// Returns whether the cell was set.
    pub fn initialized(&self) -> bool
        ensures { result ≡ has_some self.now.value }
    {
        self.value.is_some()
    }

    /// Returns whether a task has the turn to make the value. It stays so if the turn was dropped or forgotten.
    pub fn is_initializing(&self) -> bool
        ensures { result ≡ self.now.is_initializing }
    {
        self.is_initializing
    }

    /// Returns how many futures wait for the value, with those that left in a turn of another task.
    pub fn waiting(&self) -> usize
        ensures { result ≡ length self.now.queue.waiters.items }
    {
        self.queue.waiters.len()
    }

    /// Returns the value, if the cell was set.
    pub fn get(&self) -> Option<&T>
        ensures { option_copied result ≡ self.now.value }
    {
        self.value.as_ref()
    }

    /// Returns the value, if the cell was set.
    pub fn into_inner(self) -> Option<T>
        ensures { result ≡ self.value }
    {
        self.value
    }

    /// Sets the cell: all tasks that wait are to be woken.
    ///
    /// Refused with `AlreadyInitialized` if it was set before, and with `Initializing` if a task has the turn, waits for it,
    /// or is to have it next.
    pub fn set(&mut self, value: T) -> Result<(), SetError<T>>
        ensures answer { Sets self.old value result self.new }
        ensures keeps { (me : ℕ) → Keeps listed_by me self.old self.new }
    {
        if self.value.is_some() {
            return Err(SetError::AlreadyInitialized(value));
        }
        let room = self.room();
        if !self.queue.has_room(1, room) {
            return Err(SetError::Initializing(value));
        }
        self.value = Some(value);
        Ok(())
    }

    // Gives the turn to a future of this task, or makes it wait.
    fn ask_turn(&mut self, ticket: Option<Ticket>, me: u64) -> Asked<Init<T>>
        ensures asks { Asks self.old.queue ticket me 1 (room_of self.old.is_initializing) result self.new.queue }
        ensures turn { IfGot result (λ i. TakesTurn i self.old self.new) (self.new.is_initializing ≡ self.old.is_initializing) }
        ensures value { self.new.value ≡ self.old.value }
    {
        let room = self.room();
        match self.queue.ask(ticket, me, 1, room) {
            Asked::Got(()) => {
                self.is_initializing = true;
                Asked::Got(Init::Turn(InitTurn { value: PhantomData }))
            }
            Asked::Memory => Asked::Memory,
            Asked::Joined(drawn) => Asked::Joined(drawn),
            Asked::Waits => Asked::Waits,
        }
    }

    // Answers a future of this task, or makes it wait.
    fn ask(&mut self, ticket: Option<Ticket>, me: u64) -> Asked<Init<T>>
        ensures { Inits self.old ticket me result self.new }
    {
        if self.value.is_some() {
            self.queue.leave(ticket, me, 1);
            return Asked::Got(Init::Set);
        }
        self.ask_turn(ticket, me)
    }

    /// Answers a future of this task, or makes it wait: the cell was set, or the task has the turn to make the value. The
    /// ticket is the one that the future drew before.
    pub fn get_or_init(&mut self, ticket: Option<Ticket>, me: u64) -> Asked<Init<T>>
        ensures answer { Inits self.old ticket me result self.new }
        ensures keeps { Keeps listed_by me self.old self.new }
    {
        self.ask(ticket, me)
    }

    /// Sets the cell and ends the turn: all tasks that wait are to be woken.
    ///
    /// The value comes back if the cell was set, or if no turn is out: then another cell gave the turn.
    pub fn finish(&mut self, _turn: InitTurn<T>, value: T) -> Result<(), T>
        ensures answer { Finishes self.old value result self.new }
        ensures keeps { (me : ℕ) → Keeps listed_by me self.old self.new }
    {
        if self.value.is_some() {
            return Err(value);
        }
        if !self.is_initializing {
            return Err(value);
        }
        self.value = Some(value);
        self.is_initializing = false;
        Ok(())
    }

    /// Ends the turn without a value: it is owed to the first task that waits.
    pub fn give_back(&mut self, _turn: InitTurn<T>)
        ensures answer { GivesBack self.old self.new }
        ensures keeps { (me : ℕ) → Keeps listed_by me self.old self.new }
    {
        self.is_initializing = false;
    }

    /// Takes a future out of the queue, in a turn of this task. The turn, if it was reserved for the future, is owed to the
    /// first task that waits.
    pub fn give_up(&mut self, ticket: Option<Ticket>, me: u64)
        ensures answer { GivesUp self.old ticket me self.new }
        ensures keeps { Keeps listed_by me self.old self.new }
    {
        self.queue.leave(ticket, me, 1);
    }
}
