// A whole clock step, for callers who do not count its steps.
ghost use Rattle.std.specs.Prelude.{◌≡◌, ◌<◌, ◌≤◌, ◌+◌, None, OnOk, OnErr, vec_len, vec_capacity};
ghost use Rattle.mono_model.specs.Table.{count_of};
ghost use Rattle.mono_time.specs.Instants.{nanos_of};
ghost use Rattle.mono_actor.specs.Callers.{actors_of, credit_left, ListsAndQueues};

use crate::table::Actors;
use mono_time::Instant;
use mono_wheel::Steps;
use std::alloc::{AllocError, Global};
use std::marker::Brand;
use std::sync::ledger::{Blank, Ledger};

// Queues all actors whose wait has come. There is room for them.
fn ring_each<M, L: Ledger>(actors: &mut Actors<M>, now: Instant, due: &mut Vec<u64>, blank: Blank)
    requires ledger { (blank.name ≡ L.name) × (blank.parts ≡ L.parts) × (0 < L.parts) }
    requires over { (actors_of actors.old).turn ≡ None }
    requires room { vec_len due.old + count_of (actors_of actors.old).table ≤ vec_capacity due.old }
    ensures queued { ListsAndQueues (actors_of actors.old) (nanos_of now) due.old.items due.new.items (actors_of actors.new) }
    ensures credit { credit_left actors.new ≤ credit_left actors.old }
{
    let mut steps: Steps<L> = Steps::new(blank);
    actors.clock(now, due, &mut steps);
}

impl<M> Actors<M> {
    /// Shows the clock an instant, as [`Actors::clock`] does, and appends the actors whose wait has come to `due`
    /// (`queued`). No turn may be running.
    ///
    /// Reserves room for all live actors first. If that allocation fails, nothing has changed (`refused`). The steps of
    /// the wheel are not counted; they are at most the fall of its credit (`credit`).
    pub fn advance(
        &mut self,
        _alloc: Global,
        now: Instant,
        due: &mut Vec<u64>,
    ) -> Result<(), AllocError>
        requires { (actors_of self.old).turn ≡ None }
        ensures queued { OnOk result (ListsAndQueues (actors_of self.old) (nanos_of now) due.old.items due.new.items (actors_of self.new)) }
        ensures refused { OnErr result ((self.new ≡ self.old) × (due.new.items ≡ due.old.items)) }
        ensures credit { credit_left self.new ≤ credit_left self.old }
    {
        due.reserve(self.live())?;
        ring_each::<M, Brand>(self, now, due, Blank::new(1));
        Ok(())
    }
}
