// How a main task is made, and how its handle is dropped.
ghost use Rattle.std.specs.Prelude.{◌≡◌, ◌<◌, ◌+◌, true, false, Some, Ok, IfOk, OnOk, IfErr, OnErr};
ghost use Rattle.std.specs.Option.{option_map};
ghost use Rattle.mono_model.specs.Table.{next_number, is_full};
ghost use Rattle.mono_model.specs.Tasks.{spawned};
ghost use Rattle.mono_model.specs.Joins.{drop_answer, join_dropped};
ghost use Rattle.mono_rt.specs.Journals.{Goes, Does, Stays};
ghost use Rattle.mono_rt.specs.Rounds.{IsSpawn, IsRefused, DropsFor};
ghost use Rattle.mono_rt.specs.SpawnErrors.{OnCapacity, OnMemory, HasPlace};
ghost use Rattle.mono_rt.specs.DriverReadings.{Told, Course, going, Telling, Still};

use crate::parts::calls::drop_reply_of;
use crate::parts::errors::RunError;
use crate::parts::journals::{Entry, Journal};
use crate::parts::state::Parts;
use mono_blocking::{Blockings, ThreadPool};
use mono_joinword::Outcome;
use mono_machine::{Act, Event, Refusal, Reply, Report};
use mono_task::SpawnTask;
use std::alloc::Global;

impl<O: Outcome + Drop, P: ThreadPool + Drop> Parts<O, Blockings<P>> {
    /// Makes the main task, and holds room for the entry of its handle's drop.
    pub fn start_main(&mut self, alloc: Global, journal: &mut Journal) -> Result<u64, RunError>
        ensures goes { Goes O.output_number self.old self.new journal.old journal.new }
        ensures spawned { IfOk result (λ t. Does O.output_number (IsSpawn t) self.old self.new journal.old journal.new) }
        ensures refused { IfErr result (λ error. OnCapacity error (Does O.output_number IsRefused self.old self.new journal.old journal.new)) }
        ensures place { HasPlace result (is_full self.old.tasks.tasks.table self.old.tasks.tasks.limit) }
        ensures number { IfOk result (λ t. t ≡ next_number self.old.tasks.tasks.table) }
        ensures made { OnOk result (self.new.tasks.tasks ≡ spawned self.old.tasks.tasks) }
        ensures same { OnErr result (self.new.tasks.tasks ≡ self.old.tasks.tasks) }
        ensures has_timers { self.new.has_timers ≡ self.old.has_timers }
        ensures turn { self.new.tasks.turn ≡ self.old.tasks.turn }
        ensures turns { self.new.tasks.turns ≡ self.old.tasks.turns }
        ensures told { (told : Told) → Telling (Still going) told going journal.old journal.new told }
        ensures full { journal.new.is_full ≡ journal.old.is_full }
        ensures unmade { IfErr result (λ error. OnMemory error (Does O.output_number Stays self.old self.new journal.old journal.new)) }
        ensures held { IfOk result (λ t. journal.new.entries.held ≡ journal.old.entries.held + 1) }
        ensures unheld { OnErr result (journal.new.entries.held ≡ journal.old.entries.held) }
    {
        match journal.reserve(2) {
            Err(_) => Err(RunError::Memory),
            Ok(()) => match self.tasks.spawn(alloc) {
                Ok(t) => {
                    journal.push_and_hold(Entry::Ran(
                        Event::Act(Act::Spawn),
                        Report::Reply(Reply::Task(t)),
                    ));
                    Ok(t)
                }
                Err(SpawnTask::AtCapacity) => {
                    journal.push(Entry::Ran(
                        Event::Act(Act::Spawn),
                        Report::Reply(Reply::Refused(Refusal::AtCapacity)),
                    ));
                    Err(RunError::AtCapacity)
                }
                Err(SpawnTask::Memory) => Err(RunError::Memory),
            },
        }
    }

    /// Records that the main task gets no place, and returns AtCapacity. Returns Memory, and records nothing, if a kept
    /// journal gets no room for the entry (`kept`).
    pub fn refuse_main(&self, journal: &mut Journal) -> RunError
        requires { is_full self.now.tasks.tasks.table self.now.tasks.tasks.limit ≡ true }
        ensures refused { OnCapacity result (Does O.output_number IsRefused self.entry.now self.entry.now journal.old journal.new) }
        ensures unmade { OnMemory result (Does O.output_number Stays self.entry.now self.entry.now journal.old journal.new) }
        ensures kept { OnMemory result (journal.old.is_full ≡ false) }
        ensures told { (told : Told) → Telling (Still going) told going journal.old journal.new told }
        ensures full { journal.new.is_full ≡ journal.old.is_full }
        ensures held { journal.new.entries.held ≡ journal.old.entries.held }
    {
        let added = journal.add(Entry::Ran(
            Event::Act(Act::Spawn),
            Report::Reply(Reply::Refused(Refusal::AtCapacity)),
        ));
        match added {
            Err(_) => RunError::Memory,
            Ok(()) => RunError::AtCapacity,
        }
    }

    /// Drops the handle of the main task, and returns its output, whose number is in the journal. The entry takes the
    /// room that was held for it, so nothing is allocated.
    pub fn end_main(&mut self, journal: &mut Journal, main: u64) -> Option<O>
        requires { 0 < journal.old.entries.held }
        ensures output { (output : O) → drop_answer self.old.tasks.tasks main ≡ Ok (Some output) → result ≡ Some output }
        ensures dropped { Does O.output_number (DropsFor main (option_map O.output_number result)) self.old self.new journal.old journal.new }
        ensures left { self.new.tasks.tasks ≡ join_dropped self.old.tasks.tasks main }
        ensures has_timers { self.new.has_timers ≡ self.old.has_timers }
        ensures turn { self.new.tasks.turn ≡ self.old.tasks.turn }
        ensures turns { self.new.tasks.turns ≡ self.old.tasks.turns }
        ensures told { (told : Told) (course : Course) → Telling (Still course) told course journal.old journal.new told }
        ensures full { journal.new.is_full ≡ journal.old.is_full }
        ensures held { journal.new.entries.held + 1 ≡ journal.old.entries.held }
    {
        journal.release();
        let answer = self.tasks.drop_join(main);
        let reply = drop_reply_of(&answer);
        journal.push(Entry::Ran(Event::Act(Act::DropJoin(main)), Report::Reply(reply)));
        match answer {
            Ok(output) => output,
            Err(_) => None,
        }
    }
}
