// A watched value is read with its version, and changed in place.
ghost use Rattle.std.specs.Prelude.{◌≡◌, ◌==◌, not, ℕ};
ghost use Rattle.std.specs.Fn.{FnOnceReturnsAtMut, FnReturnsAt};
ghost use Rattle.mono_sync.specs.Runs.{Leads};
ghost use Rattle.mono_sync.specs.WatchRuns.{Step};
ghost use Rattle.mono_sync.specs.Watches.{listed_by};
ghost use Rattle.mono_sync.specs.Modifies.{Modifies, ModifiesIf};
ghost use Rattle.mono_sync.specs.WaitsFor.{WaitsFor};
ghost use Rattle.mono_task.specs.Owed.{Keeps};

use crate::lines::Ticket;
use crate::watch::{Changing, Watch};

impl<T> Watch<T> {
    /// Returns whether the value has another version than the seen one.
    pub fn has_changed(&self, seen: u64) -> bool
        ensures { result ≡ not (self.now.version == seen) }
    {
        self.version != seen
    }

    /// Returns whether the value was closed.
    pub fn is_closed(&self) -> bool
        ensures { result ≡ self.now.is_closed }
    {
        self.is_closed
    }

    /// Returns the last value, and notes its version as the seen one.
    pub fn borrow_and_update(&self, seen: &mut u64) -> &T
        ensures value { result.now ≡ self.now.value }
        ensures seen { seen.new ≡ self.now.version }
    {
        *seen = self.version;
        &self.value
    }

    /// Changes the value by a closure, and returns what the closure returns: all tasks that wait are to be woken.
    ///
    /// The closure comes back if the value was closed, or if no version is left. Then it was not called.
    pub fn send_modify<U, F: FnOnce(&mut T) -> U>(&mut self, func: F) -> Result<U, F>
        requires callable { F.IsAlwaysCallable func }
        ensures answer { Modifies (FnOnceReturnsAtMut F.FnOnce func) func self.old result self.new }
        ensures leads { Leads Step self.old self.new }
        ensures keeps { (me : ℕ) → Keeps listed_by me self.old self.new }
    {
        if self.is_closed {
            return Err(func);
        }
        let Some(version) = self.version.checked_add(1) else {
            return Err(func);
        };
        self.version = version;
        self.cleared = self.line.next;
        Ok(func(&mut self.value))
    }

    /// Changes the value by a closure, and returns what the closure returns. If it returns true, all tasks that wait are to be
    /// woken. If it returns false, the version stays the same, and no task is woken.
    ///
    /// The closure comes back if the value was closed, or if no version is left. Then it was not called.
    pub fn send_if_modified<F: FnOnce(&mut T) -> bool>(&mut self, func: F) -> Result<bool, F>
        requires callable { F.IsAlwaysCallable func }
        ensures answer { ModifiesIf (FnOnceReturnsAtMut F.FnOnce func) func self.old result self.new }
        ensures leads { Leads Step self.old self.new }
        ensures keeps { (me : ℕ) → Keeps listed_by me self.old self.new }
    {
        if self.is_closed {
            return Err(func);
        }
        let Some(version) = self.version.checked_add(1) else {
            return Err(func);
        };
        if !func(&mut self.value) {
            return Ok(false);
        }
        self.version = version;
        self.cleared = self.line.next;
        Ok(true)
    }
}

impl<T: Drop> Watch<T> {
    /// Answers a future of this task with the version if the value meets the condition, or makes it wait for another value. The
    /// ticket is the one that the future drew before.
    pub fn wait_for<F: Fn(&T) -> bool>(
        &mut self,
        func: &F,
        ticket: Option<Ticket>,
        me: u64,
    ) -> Changing
        requires callable { F.IsAlwaysCallable func.now }
        ensures answer { WaitsFor (FnReturnsAt F.Fn func.now) self.old ticket me result self.new }
        ensures leads { Leads Step self.old self.new }
        ensures keeps { Keeps listed_by me self.old self.new }
    {
        if func(&self.value) {
            self.give_up(ticket, me);
            return Changing::Changed(self.version);
        }
        self.changed(self.version, ticket, me)
    }
}
