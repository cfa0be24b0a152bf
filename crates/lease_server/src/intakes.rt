// The reading of the input, and the sending of what it asks.
ghost use Rattle.std.specs.Prelude.{◌≡◌, ◌++◌, ℕ, true, false, List, [], IfOk, Some};
ghost use Rattle.lease_server.specs.Blocks.{rest_of, IsAtEnd};
ghost use Rattle.lease_server.specs.Routing.{HasNoFeed};
ghost use Rattle.lease_server.specs.Dispatch.{Holds, HasSentAll, KeepsWays};
ghost use Rattle.lease_server.specs.Splits.{Stands};
ghost use Rattle.lease_server.specs.Intakes.{Ends, FaultsIn, Fits, IsOverIn, Leads, LeadsFaults, Polls, SendsIn, status_of};
ghost use Rattle.lease_server.specs.Routers.{LeadsOn};

use crate::dispatchers::Dispatcher;
use crate::splitters::Splitter;
use crate::status;
use mono_rt::{Host, Poll, RemoteWaker, UnparkHandle};
use mono_text::Source;
use std::alloc::{AllocError, Global};

/// How far the input was read.
#[derive(Clone, Copy, PartialEq, Eq, Drop)]
pub enum Phase {
    /// There may be more.
    Reading,
    /// To its end.
    Ended,
    /// Until a read failed.
    Failed,
}

/// A source of lines, the splitter of its lines, and how far it was read.
#[derive(Drop)]
pub struct Intake<S> {
    source: S,
    pub(crate) splitter: Splitter,
    phase: Phase,
}

impl<S: Source> Intake<S> {
    /// Returns the intake of a source of which nothing was read. It reads into this buffer.
    pub fn new(source: S, buffer: Vec<u8>, dispatcher: Dispatcher) -> Intake<S>
        ensures source { result.source ≡ source }
        ensures dispatcher { result.splitter.dispatcher ≡ dispatcher }
        ensures fits { Holds [] dispatcher → Fits S.left [] result }
        ensures faults { FaultsIn result.phase (S.faults source) (S.faults result.source) }
    {
        Intake {
            source,
            splitter: Splitter::new(buffer, dispatcher),
            phase: Phase::Reading,
        }
    }

    /// Closes all channels.
    pub fn close<R: Host>(&mut self, rt: &R)
        ensures source { self.new.source ≡ self.old.source }
        ensures phase { self.new.phase ≡ self.old.phase }
        ensures block { self.new.splitter.block ≡ self.old.splitter.block }
        ensures lanes { self.new.splitter.dispatcher.lanes.items ≡ self.old.splitter.dispatcher.lanes.items }
        ensures refusals { self.new.splitter.dispatcher.refusals ≡ self.old.splitter.dispatcher.refusals }
    {
        self.splitter.dispatcher.close(rt);
    }

    /// Returns the status with which the intake ends: `DONE` if the input has ended and all was sent, a failed read, or
    /// out of memory. After a failed read each whole line that was read was sent, too.
    pub fn end(&self) -> u64
        ensures { Ends self.now result }
    {
        if !self.splitter.dispatcher.has_sent_all() {
            return status::MEMORY;
        }
        if !self.is_over() {
            return status::MEMORY;
        }
        self.status()
    }

    /// Returns the source and the dispatcher.
    pub fn into_parts(self) -> (S, Dispatcher)
        ensures { (result.0 ≡ self.source) × (result.1 ≡ self.splitter.dispatcher) }
    {
        let Intake {
            source,
            splitter,
            phase: _,
        } = self;
        (source, splitter.into_dispatcher())
    }

    /// Returns the status of an intake that is done: a failed read, or `DONE`.
    pub fn status(&self) -> u64
        ensures { result ≡ status_of self.now.phase }
    {
        match self.phase {
            Phase::Failed => status::READ,
            _ => status::DONE,
        }
    }

    // Returns whether nothing more is read.
    fn has_ended(&self) -> bool
        ensures ended { result ≡ true → self.now.phase ≡ Phase.Reading → ⊥ }
        ensures reading { result ≡ false → self.now.phase ≡ Phase.Reading }
    {
        match self.phase {
            Phase::Reading => false,
            Phase::Ended | Phase::Failed => true,
        }
    }

    // Returns whether nothing more is read or taken: the input has ended, or a read failed and each whole line that was
    // read was taken.
    fn is_over(&self) -> bool
        ensures { result ≡ true → IsOverIn self.now.phase self.now.splitter }
    {
        match self.phase {
            Phase::Ended => true,
            Phase::Failed => !self.splitter.has_line(),
            _ => false,
        }
    }

    // Ends the reading if the last read found the end of the input. Then it takes the last line.
    #[tactic(auto, using(crate::proofs::WayLemmas::keeps_itself))]
    fn end_if(&mut self, count: usize) -> Result<(), AllocError>
        requires reading { self.old.phase ≡ Phase.Reading }
        requires begun { HasNoFeed (rest_of self.old.splitter.block) }
        requires end { count ≡ 0 → IsAtEnd (S.left self.old.source) }
        ensures source { self.new.source ≡ self.old.source }
        ensures going { self.new.phase ≡ Phase.Failed → ⊥ }
        ensures ways { KeepsWays self.old.splitter.dispatcher self.new.splitter.dispatcher }
        ensures fits { (text : List ℕ) → Stands text self.old.splitter → Fits S.left text self.new }
    {
        if count == 0 {
            self.splitter.take_last()?;
            self.phase = Phase::Ended;
        }
        Ok(())
    }

    // Reads once, and takes the lines that then have a line feed. At the end of the input, takes the last line too.
    fn read(&mut self) -> Result<(), AllocError>
        requires { self.old.phase ≡ Phase.Reading }
        ensures ways { KeepsWays self.old.splitter.dispatcher self.new.splitter.dispatcher }
        ensures led { Leads S.left self.old self.new }
        ensures faults { LeadsFaults S.faults self.old self.new }
    {
        if !self.splitter.can_read() {
            return Err(AllocError);
        }
        match self.splitter.read(&mut self.source) {
            Err(_) => {
                self.phase = Phase::Failed;
                Ok(())
            }
            Ok(count) => {
                self.splitter.take_lines()?;
                self.end_if(count)
            }
        }
    }

    /// Sends and reads until a channel is full or the input has ended. Returns a status if it is done: of the intake, or
    /// out of memory.
    pub fn poll<R: Host>(
        &mut self,
        rt: &R,
        alloc: Global,
        waker: &RemoteWaker<UnparkHandle>,
    ) -> Poll<u64>
        ensures led { LeadsOn S.left S.faults self.old self.new }
        ensures polled { Polls S.left self.old result self.new }
    {
        match self.go_on(rt, alloc, waker) {
            Ok(false) => Poll::Pending,
            Ok(true) => Poll::Ready(self.status()),
            Err(_) => Poll::Ready(status::MEMORY),
        }
    }

    /// Sends and reads until a channel is full or the input has ended. Returns whether the input has ended, or a read
    /// failed, and all was sent: if not, this waker's task is woken when a channel has room.
    ///
    /// If done, each line of the input was sent: its request to the core of its key, or its refusal (`done`). Also if
    /// out of memory, what was read and what was given agree (`led`).
    pub fn go_on<R: Host>(
        &mut self,
        rt: &R,
        alloc: Global,
        waker: &RemoteWaker<UnparkHandle>,
    ) -> Result<bool, AllocError>
        ensures ways { KeepsWays self.old.splitter.dispatcher self.new.splitter.dispatcher }
        ensures led { Leads S.left self.old self.new }
        ensures faults { LeadsFaults S.faults self.old self.new }
        ensures done { IfOk result (λ is_done. is_done ≡ true → (text : List ℕ) (rest : List ℕ) → Fits S.left text self.old →
            S.left self.old.source ≡ Some rest → SendsIn self.new.phase (text ++ rest) (S.left self.new.source) self.new.splitter.dispatcher) }
    {
        for _ in 0..u64::MAX {
            if !self.splitter.dispatcher.flush(rt, alloc, waker)? {
                return Ok(false);
            }
            if self.has_ended() {
                if !self.is_over() {
                    return Err(AllocError);
                }
                return Ok(true);
            }
            self.read()?;
        }
        Ok(false)
    }
}
