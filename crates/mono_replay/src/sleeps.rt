// How sleeps are made and reset.
ghost use Rattle.std.specs.Prelude.{◌≡◌, ℕ, IfOk, OnOk};
ghost use Rattle.mono_machine.specs.Machine.{Machine};
ghost use Rattle.mono_machine.specs.Acts.{act_outcome};
ghost use Rattle.mono_time.specs.Sleeps.{IsNoneArmedUpTo};
ghost use Rattle.mono_time.specs.Timers.{sleeps_of, registered_of};
ghost use Rattle.mono_replay.specs.PartRefinement.{Matches};
ghost use Rattle.mono_time.specs.Registrations.{FollowsAct};
ghost use Rattle.mono_machine.specs.declared.events.Act.{Act};

use crate::parts::Parts;
use crate::{Refusal, Reply};
use mono_machine::reset_reply;
use mono_task::wake_if_any;
use mono_time::{Instant, SleepError};
use std::alloc::{AllocError, Global};

impl Parts {
    /// Makes a sleep.
    pub fn new_sleep(&mut self, alloc: Global, n: u128) -> Result<Reply, AllocError>
        ensures reply { IfOk result (λ r. (m : Machine) → Matches self.old m → r ≡ (act_outcome (Act.NewSleep n) m).reply) }
        ensures matches { OnOk result ((m : Machine) → Matches self.old m → Matches self.new (act_outcome (Act.NewSleep n) m).machine) }
        ensures turn { self.new.tasks.turn ≡ self.old.tasks.turn }
        ensures registered { (s : ℕ) → registered_of self.new.timers s ≡ registered_of self.old.timers s }
    {
        match Instant::from_nanos(n) {
            None => {
                if self.timers.is_full() {
                    return Ok(Reply::Refused(Refusal::AtCapacity));
                }
                Ok(Reply::Refused(Refusal::Invalid))
            }
            Some(deadline) => match self.timers.add(alloc, deadline) {
                Ok(s) => Ok(Reply::Sleep(s)),
                Err(SleepError::Timer(_)) => Ok(Reply::Refused(Refusal::AtCapacity)),
                Err(SleepError::Memory) => Err(AllocError),
            },
        }
    }

    /// Arms a sleep at another deadline. If it elapses at once, its waker is woken.
    pub fn reset(&mut self, s: u64, n: u128) -> Reply
        ensures reply { (m : Machine) → Matches self.old m → result ≡ (act_outcome (Act.Reset s n) m).reply }
        ensures matches { (m : Machine) → Matches self.old m → Matches self.new (act_outcome (Act.Reset s n) m).machine }
        ensures turn { self.new.tasks.turn ≡ self.old.tasks.turn }
        ensures registered { (m : Machine) → Matches self.old m → IsNoneArmedUpTo (sleeps_of self.old.timers) →
            FollowsAct self.old.timers self.new.timers m.sleeps (act_outcome (Act.Reset s n) m).machine.sleeps }
    {
        match Instant::from_nanos(n) {
            None => match self.timers.is_elapsed(s) {
                Err(_) => Reply::Refused(Refusal::NoTimer),
                Ok(_) => Reply::Refused(Refusal::Invalid),
            },
            Some(deadline) => match self.timers.reset(s, deadline) {
                Err(_) => Reply::Refused(Refusal::NoTimer),
                Ok(waker) => {
                    wake_if_any(&mut self.tasks, waker);
                    reset_reply(n, self.timers.greatest())
                }
            },
        }
    }
}
