// The count of the senders that are open, beside the queue.
ghost use Rattle.std.specs.Prelude.{◌≡◌, ◌-◌, ◌<◌, true, false, IfOk};
ghost use Rattle.mono_channel.specs.Standings.{standing};
ghost use Rattle.mono_channel.specs.Stakes.{IsStakeOf};
ghost use Rattle.mono_channel.specs.Ends.{weight};

use crate::stakes::{Enters, Gathers, Hands, Leaves, Looks, SenderCount, Shows, Stake};
use atomic_table::Table;
use mono_model::Host;
use std::alloc::{AllocError, Global};

impl SenderCount {
    /// Returns the count of a channel with one open sender, with that sender's stake and the receiver's.
    pub(crate) fn new(alloc: Global) -> Result<(SenderCount, Stake, Stake), AllocError>
        ensures of { IfOk result (λ r. IsStakeOf r.0 r.1 × IsStakeOf r.0 r.2) }
        ensures open { IfOk result (λ r. (r.1.me.0 ≡ standing 1 false) × (r.2.me.0 ≡ standing 0 false)) }
    {
        let (table, mut stake) = Table::of_words(alloc, &[1], &())?;
        let theirs = table.shared.split_seat::<Shows>(&mut stake);
        Ok((SenderCount { table }, stake, theirs))
    }

    /// Counts one more sender that is open, beside the one of this stake, and returns its stake. Fails only if the count
    /// cannot grow.
    pub(crate) fn enter<R: Host>(&self, rt: &R, stake: &mut Stake) -> Result<Stake, AllocError>
        requires of { IsStakeOf self.now stake.old }
        requires open { 0 < stake.old.me.0.senders }
        ensures same { IsStakeOf self.entry.now stake.new × (stake.new.me.0 ≡ stake.old.me.0) }
        ensures further { IfOk result (λ s. IsStakeOf self.entry.now s × (s.me.0 ≡ standing 1 false)) }
    {
        for _ in rt.forever() {
            let count = self.table.shared.peek(0);
            let Some(more) = count.checked_add(1) else {
                return Err(AllocError);
            };
            let shared = &self.table.shared;
            if shared.compare_exchange::<Enters>(stake, 0, count, more) == count {
                return Ok(shared.split_seat::<Hands>(stake));
            }
        }
        unreachable!()
    }

    /// Returns the stake of an end that counts for no sender.
    pub(crate) fn watch(&self, stake: &mut Stake) -> Stake
        requires { IsStakeOf self.now stake.old }
        ensures same { IsStakeOf self.now stake.new × (stake.new.me.0 ≡ stake.old.me.0) }
        ensures further { IsStakeOf self.now result × (result.me.0 ≡ standing 0 false) }
    {
        self.table.shared.split_seat::<Shows>(stake)
    }

    /// Returns the stake of a further sender, which is open if and only if the one with this stake is. Fails only if the
    /// count cannot grow.
    pub(crate) fn further<R: Host>(
        &self,
        rt: &R,
        stake: &mut Stake,
        is_closed: bool,
    ) -> Result<Stake, AllocError>
        requires of { IsStakeOf self.now stake.old }
        requires weight { stake.old.me.0.senders ≡ weight is_closed }
        ensures same { IsStakeOf self.now stake.new × (stake.new.me.0 ≡ stake.old.me.0) }
        ensures further { IfOk result (λ s. IsStakeOf self.now s × (s.me.0.senders ≡ weight is_closed)) }
    {
        if is_closed {
            Ok(self.watch(stake))
        } else {
            self.enter(rt, stake)
        }
    }

    /// Counts an open sender out. Returns whether it was the last.
    pub(crate) fn leave(&self, stake: &mut Stake) -> bool
        requires of { IsStakeOf self.now stake.old }
        requires open { 0 < stake.old.me.0.senders }
        ensures of { IsStakeOf self.now stake.new }
        ensures counted { stake.new.me.0 ≡ standing (stake.old.me.0.senders - 1) result }
    {
        self.table.shared.fetch_sub::<Leaves>(stake, 0, 1) == 1
    }

    /// Returns whether no sender is open. Then none ever will be.
    pub(crate) fn look(&self, stake: &mut Stake) -> bool
        requires { IsStakeOf self.now stake.old }
        ensures of { IsStakeOf self.now stake.new }
        ensures seen { stake.new.me.0 ≡ standing stake.old.me.0.senders result }
        ensures stays { stake.old.me.0.over ≡ true → result ≡ true }
        ensures none { result ≡ true → stake.old.me.0.senders ≡ 0 }
    {
        self.table.shared.load::<Looks>(stake, 0) == 0
    }

    /// Returns whether no sender was open at one moment of the call. Then none ever will be.
    pub(crate) fn is_zero(&self) -> bool {
        self.table.shared.peek(0) == 0
    }

    /// Takes in another stake, and looks.
    pub(crate) fn absorb(&self, stake: &mut Stake, other: Stake)
        requires { IsStakeOf self.now stake.old × IsStakeOf self.now other }
        ensures of { IsStakeOf self.now stake.new }
        ensures stays { stake.old.me.0.over ≡ true → stake.new.me.0.over ≡ true }
        ensures none { stake.new.me.0.over ≡ true → (stake.old.me.0.senders ≡ 0) × (other.me.0.senders ≡ 0) }
    {
        self.table.shared.join_seat::<Gathers>(stake, other);
        self.look(stake);
    }
}
