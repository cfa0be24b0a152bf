// The tasks that other threads woke, after they were taken: recorded in the journal, and woken.
ghost use Rattle.std.specs.Prelude.{◌≡◌, ◌≤◌, ◌<◌, ◌+◌, ◌++◌, ◌∷◌, ℕ, [], length, vec_len, vec_capacity};
ghost use Rattle.mono_task.specs.Work.{over_answer};
ghost use Rattle.mono_rt.specs.Outputs.{AddsNone};
ghost use Rattle.mono_machine.specs.declared.events.Event.TheVariants as event;
ghost use Rattle.mono_rt.specs.declared.parts.journals.Entry.TheVariants.{Ran};
ghost use Rattle.mono_rt.specs.Drains.{told_by, listed_by, remotes, listed, IsReady, DrainsAll};
ghost use Rattle.mono_rt.specs.Journals.{Does, HasPlaces};
ghost use Rattle.mono_rt.specs.DriverReadings.{Told, Course, Telling, Still, IsDrained};

use crate::parts::journals::{Entry, Journal};
use crate::parts::state::Parts;
use crate::parts::takes::Taken;
use mono_blocking::{Blockings, ThreadPool};
use mono_joinword::Outcome;
use mono_machine::{Event, List, Refusal, Reply, Report};
use mono_task::wake_all;

impl<O: Outcome + Drop, P: ThreadPool + Drop> Parts<O, Blockings<P>> {
    /// Records and wakes the tasks that were taken. It takes no memory, so it loses none.
    #[inline(always)]
    pub fn wake_taken(&mut self, journal: &mut Journal, taken: Taken)
        requires { IsReady taken journal.old }
        ensures drained { Does O.output_number (DrainsAll taken.tasks.items) self.old self.new journal.old journal.new }
        ensures turn { self.new.tasks.turn ≡ self.old.tasks.turn }
        ensures turns { self.new.tasks.turns ≡ self.old.tasks.turns }
        ensures longer { length self.old.tasks.tasks.queue ≤ length self.new.tasks.tasks.queue }
        ensures adds { AddsNone self.old.tasks.tasks self.new.tasks.tasks }
        ensures has_timers { self.new.has_timers ≡ self.old.has_timers }
        ensures told { (old new : Told) (before after : Course) → IsDrained before old after new → Telling (Still after) old before journal.old journal.new new }
        ensures full { journal.new.is_full ≡ journal.old.is_full }
        ensures held { journal.new.entries.held ≡ journal.old.entries.held }
    {
        let Taken { tasks, mut woken } = taken;
        self.tell_remotes(journal, &tasks, &mut woken);
        wake_all(&mut self.tasks, &woken);
        journal.push(Entry::Ran(Event::Drain, Report::Drained(List::from(woken))));
    }

    /// Adds one entry for each task, and lists the tasks to wake.
    fn tell_remotes(&self, journal: &mut Journal, taken: &[u64], into: &mut Vec<u64>)
        requires places { HasPlaces journal.old (length taken.now + 1) }
        requires room { vec_len into.old + length taken.now ≤ vec_capacity into.old }
        ensures history { journal.new.history.entries ≡ journal.old.history.entries ++ remotes self.entry.now.tasks.tasks taken.now }
        ensures full { journal.new.is_full ≡ journal.old.is_full }
        ensures place { HasPlaces journal.new 1 }
        ensures listed { into.new.items ≡ into.old.items ++ listed self.entry.now.tasks.tasks taken.now }
        ensures held { journal.new.entries.held ≡ journal.old.entries.held }
    {
        for t in taken {
            self.tell_remote(journal, *t, into);
        }
    }

    fn tell_remote(&self, journal: &mut Journal, t: u64, into: &mut Vec<u64>)
        requires place { HasPlaces journal.old 1 }
        requires room { vec_len into.old < vec_capacity into.old }
        ensures history { journal.new.history.entries ≡ journal.old.history.entries ++ Ran (event.Remote t) (told_by (over_answer self.entry.now.tasks.tasks t)) ∷ [] }
        ensures full { journal.new.is_full ≡ journal.old.is_full }
        ensures places { (n : ℕ) → HasPlaces journal.old (n + 1) → HasPlaces journal.new n }
        ensures listed { into.new.items ≡ into.old.items ++ listed_by (over_answer self.entry.now.tasks.tasks t) t }
        ensures len { vec_len into.new ≤ vec_len into.old + 1 }
        ensures capacity { vec_capacity into.new ≡ vec_capacity into.old }
        ensures held { journal.new.entries.held ≡ journal.old.entries.held }
    {
        match self.tasks.has_finished(t) {
            Err(_) => journal.push(Entry::Ran(
                Event::Remote(t),
                Report::Reply(Reply::Refused(Refusal::NoTask)),
            )),
            Ok(true) => journal.push(Entry::Ran(Event::Remote(t), Report::Unlisted)),
            Ok(false) => {
                into.push_reserved(t);
                journal.push(Entry::Ran(Event::Remote(t), Report::Listed));
            }
        }
    }
}
