// The refusals of the lines that are no request.
ghost use Rattle.std.specs.Prelude.{◌≡◌, ◌++◌, ◌∷◌, [], true, IfErr, IfOk, OnOk, OnErr, None};
ghost use Rattle.mono_channel.specs.Delivery.{shares_kept, shares_given};
ghost use Rattle.mono_channel.specs.Ends.{sent_by, closed, shares_of, IsPair};
ghost use Rattle.lease_server.specs.Lanes.{answers_given, answers_sent};
ghost use Rattle.lease_server.specs.Outlets.{Stays};
ghost use Rattle.lease_server.specs.Answers.{refusals_of};
ghost use Rattle.lease_server.specs.Texts.{said_by};

use crate::outlets::Outlet;
use crate::texts::Text;
use mono_channel::Sender;
use mono_rt::{Host, RemoteWaker, UnparkHandle};
use std::alloc::{AllocError, Global};

/// The numbers of the lines that were refused since the last text, and the channel of the texts.
#[derive(Drop)]
pub struct Refusals {
    numbers: Vec<u64>,
    outlet: Outlet<Text>,
}

// Appends the refusals of the lines of these numbers.
fn put_refusals(out: &mut Text, numbers: &[u64]) -> Result<(), AllocError>
    ensures { OnOk result (said_by out.new ≡ said_by out.old ++ refusals_of numbers.now) }
{
    for number in numbers {
        out.put_bad(*number)?;
    }
    Ok(())
}

impl Refusals {
    /// Returns refusals over this channel, of no line.
    pub fn new(alloc: Global, sender: Sender<Text, UnparkHandle>) -> Refusals
        ensures sender { result.outlet.sender ≡ closed sender }
        ensures given { sent_by sender ≡ [] → answers_given result ≡ [] }
    {
        Refusals {
            numbers: Vec::new(alloc),
            outlet: Outlet::new(sender),
        }
    }

    /// Closes the channel.
    pub fn close<R: Host>(&mut self, rt: &R)
        ensures { self.new ≡ self.old }
    {
        self.outlet.close(rt);
    }

    /// Returns a further sender of the channel. Fails only if the count of owners cannot grow.
    pub fn try_clone<R: Host>(&mut self, rt: &R) -> Result<Sender<Text, UnparkHandle>, AllocError>
        ensures same { IsPair self.new.outlet.sender self.old.outlet.sender }
        ensures given { answers_given self.new ≡ answers_given self.old }
        ensures further { IfOk result (λ sender. IsPair sender self.old.outlet.sender × (sent_by sender ≡ [])) }
        ensures shares { IfOk result (λ sender. (shares_of self.new.outlet.sender ≡ shares_kept (shares_of self.old.outlet.sender))
            × (shares_of sender ≡ shares_given (shares_of self.old.outlet.sender))) }
        ensures none { IfErr result (λ e. shares_of self.new.outlet.sender ≡ shares_of self.old.outlet.sender) }
    {
        self.outlet.try_clone(rt)
    }

    /// Returns whether all refusals were sent.
    pub fn has_sent_all(&self) -> bool
        ensures { result ≡ true → answers_sent self.now ≡ answers_given self.now }
    {
        self.numbers.is_empty() && self.outlet.is_empty()
    }

    /// Returns the sender.
    pub fn into_sender(self) -> Sender<Text, UnparkHandle>
        ensures { closed result ≡ self.outlet.sender }
    {
        let Refusals { numbers: _, outlet } = self;
        outlet.into_sender()
    }

    /// Refuses the line of this number. If out of memory, the refusals stay.
    pub fn take(&mut self, number: u64) -> Result<(), AllocError>
        ensures same { Stays self.old.outlet.sender self.new.outlet.sender }
        ensures ok { OnOk result (answers_given self.new ≡ answers_given self.old ++ refusals_of (number ∷ [])) }
        ensures err { OnErr result (answers_given self.new ≡ answers_given self.old) }
    {
        self.numbers.push(number)?;
        Ok(())
    }

    // Makes one text of the refusals that were collected, if any.
    fn wrap(&mut self, alloc: Global) -> Result<(), AllocError>
        requires { self.old.outlet.message ≡ None }
        ensures same { Stays self.old.outlet.sender self.new.outlet.sender }
        ensures given { answers_given self.new ≡ answers_given self.old }
        ensures wrapped { OnOk result (self.new.numbers.items ≡ []) }
    {
        if self.numbers.len() == 0 {
            return Ok(());
        }
        let mut text = Text::new(alloc);
        put_refusals(&mut text, self.numbers.as_slice())?;
        self.outlet.put(text);
        self.numbers.clear();
        Ok(())
    }

    /// Sends all refusals. Returns whether all were sent: if not, the writer wakes this waker's task when it takes a
    /// text. The refusals stay in each case (`given`).
    pub fn flush<R: Host>(
        &mut self,
        rt: &R,
        alloc: Global,
        waker: &RemoteWaker<UnparkHandle>,
    ) -> Result<bool, AllocError>
        ensures same { Stays self.old.outlet.sender self.new.outlet.sender }
        ensures given { answers_given self.new ≡ answers_given self.old }
        ensures sent { IfOk result (λ is_sent. is_sent ≡ true → answers_sent self.new ≡ answers_given self.new) }
    {
        if !self.outlet.flush(rt, waker)? {
            return Ok(false);
        }
        self.wrap(alloc)?;
        self.outlet.flush(rt, waker)
    }
}
