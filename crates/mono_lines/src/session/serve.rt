// Sessions that answer lines.
ghost use Rattle.std.specs.Prelude.{◌≡◌, ◌++◌, ◌≤◌, ◌<◌, ◌+◌, ℕ, List, IfOk, OnOk, OnErr, vec_len, vec_capacity};
ghost use Rattle.mono_model.specs.Due.{ListsDue};
ghost use Rattle.mono_text.specs.Services.{Serves};
ghost use Rattle.mono_text.specs.Follows.{HasFollowed};
ghost use Rattle.mono_time.specs.Instants.{nanos_of};
ghost use Rattle.mono_session.specs.Keeper.{Keeper, no_sessions, with_greatest};
ghost use Rattle.mono_session.specs.Steps.{closing_value, greatest_at, without_all};
ghost use Rattle.mono_session.specs.Refinement.{StandsFor, open_count};
ghost use Rattle.mono_lines.specs.SessionTexts.{call_text, FitsCall, StepsAs};
ghost use Rattle.mono_lines.specs.SessionServices.{Tells};
ghost use Rattle.mono_lines.specs.declared.session.calls.SessionCall.TheVariants as line;

use crate::session::calls::SessionCall;
use crate::session::print::{put_done, put_first, put_opened, put_owner, put_refused};
use crate::session::read::call_line;
use mono_session::{SessionError, Sessions};
use mono_text::{Followed, Reader, Served, Service, Sink, Source, follow, put_list, serve};
use mono_time::Instant;
use mono_wheel::Steps;
use std::alloc::{AllocError, Global};
use std::marker::Brand;
use std::sync::ledger::{Blank, Ledger};

// The sessions, and a list for those that a clock step closes, which is used again.
#[derive(Drop)]
struct SessionLines {
    sessions: Sessions,
    closed: Vec<u64>,
}

// Makes a clock step whose steps are not counted. There is room for the sessions that it closes.
fn clock_step<L: Ledger>(sessions: &mut Sessions, now: Instant, closed: &mut Vec<u64>, blank: Blank)
    requires ledger { (blank.name ≡ L.name) × (blank.parts ≡ L.parts) × (0 < L.parts) }
    requires room { vec_len closed.old + open_count sessions.old ≤ vec_capacity closed.old }
    ensures { (k : Keeper) → StandsFor sessions.old k → (due : List ℕ) × (closed.new.items ≡ closed.old.items ++ due) × ListsDue closing_value k.sessions (greatest_at k (nanos_of now)) due × StandsFor sessions.new (without_all (with_greatest k (greatest_at k (nanos_of now))) due) }
{
    let mut steps: Steps<L> = Steps::new(blank);
    sessions.clock(now, closed, &mut steps);
}

impl SessionLines {
    fn open(&mut self, alloc: Global, limit: u64, out: &mut Vec<u8>) -> Result<(), AllocError>
        ensures { OnOk result (Tells self.old.sessions (line.Open limit) out.old.items out.new.items self.new.sessions) }
    {
        let told = self.sessions.open(alloc, limit);
        put_opened(out, told)
    }

    fn beat(&mut self, session: u64, out: &mut Vec<u8>) -> Result<(), AllocError>
        ensures { OnOk result (Tells self.old.sessions (line.Beat session) out.old.items out.new.items self.new.sessions) }
    {
        let told = self.sessions.beat(session);
        put_done(out, told)
    }

    fn close(&mut self, session: u64, out: &mut Vec<u8>) -> Result<(), AllocError>
        ensures { OnOk result (Tells self.old.sessions (line.Close session) out.old.items out.new.items self.new.sessions) }
    {
        let told = self.sessions.close(session);
        put_done(out, told)
    }

    fn acquire(
        &mut self,
        alloc: Global,
        session: u64,
        key: u64,
        out: &mut Vec<u8>,
    ) -> Result<(), AllocError>
        ensures { OnOk result (Tells self.old.sessions (line.Acquire session key) out.old.items out.new.items self.new.sessions) }
    {
        let told = self.sessions.acquire(alloc, session, key);
        put_first(out, told)
    }

    fn release(&mut self, session: u64, key: u64, out: &mut Vec<u8>) -> Result<(), AllocError>
        ensures { OnOk result (Tells self.old.sessions (line.Release session key) out.old.items out.new.items self.new.sessions) }
    {
        let told = self.sessions.release(session, key);
        put_done(out, told)
    }

    fn owner(&mut self, key: u64, out: &mut Vec<u8>) -> Result<(), AllocError>
        ensures { OnOk result (Tells self.old.sessions (line.Owner key) out.old.items out.new.items self.new.sessions) }
    {
        let told = self.sessions.owner(key);
        put_owner(out, told)
    }

    fn clock(&mut self, n: u128, out: &mut Vec<u8>) -> Result<(), AllocError>
        ensures { OnOk result (Tells self.old.sessions (line.Clock n) out.old.items out.new.items self.new.sessions) }
    {
        let Some(now) = Instant::from_nanos(n) else {
            return put_refused(out, SessionError::Invalid);
        };
        self.closed.clear();
        self.closed.reserve(self.sessions.open_len())?;
        clock_step::<Brand>(&mut self.sessions, now, &mut self.closed, Blank::new(1));
        put_list(out, b"closed".as_slice(), self.closed.as_slice())
    }
}

impl Service for SessionLines {
    type Call = SessionCall;

    type Spare = ();

    ghost use Rattle.mono_text.specs.Services.{AnswersAs};
    ghost use Rattle.mono_session.specs.Refinement.{StandsFor};
    ghost use Rattle.mono_lines.specs.SessionTexts.{call_text, FitsCall, StepsAs};

    ghost text = { λ call. call_text call };

    ghost fits = { λ call. FitsCall call };

    ghost answers = { λ old call text new. AnswersAs StandsFor StepsAs old.sessions call text new.sessions };

    fn spare(_alloc: Global) {}

    fn read(
        _alloc: Global,
        _spare: &mut (),
        reader: &mut Reader,
    ) -> Result<Option<SessionCall>, AllocError> {
        call_line(reader)
    }

    fn answer(
        &mut self,
        alloc: Global,
        call: SessionCall,
        _spare: &mut (),
        out: &mut Vec<u8>,
    ) -> Result<(), AllocError> {
        match call {
            SessionCall::Open(limit) => self.open(alloc, limit, out),
            SessionCall::Beat(session) => self.beat(session, out),
            SessionCall::Close(session) => self.close(session, out),
            SessionCall::Acquire(session, key) => self.acquire(alloc, session, key, out),
            SessionCall::Release(session, key) => self.release(session, key, out),
            SessionCall::Owner(key) => self.owner(key, out),
            SessionCall::Clock(n) => self.clock(n, out),
        }
    }
}

/// Returns the answers of sessions to an input, a line for each line. At first there are no sessions, and at most
/// `sessions` may be open, with at most `entries` entries in all queues. If a line is no call, the answer is the number
/// of the first such line.
///
/// Answers each call by the rules of the sessions (`Step`), one after another from the empty sessions.
pub fn sessions(
    alloc: Global,
    sessions: u64,
    entries: u64,
    input: &[u8],
) -> Result<Served, AllocError>
    ensures { IfOk result (λ served. Serves call_text FitsCall StepsAs (no_sessions sessions entries) input.now served) }
{
    let made = Sessions::new(alloc, sessions, entries)?;
    let start = SessionLines {
        sessions: made,
        closed: Vec::new(alloc),
    };
    serve(alloc, start, input)
}

/// Answers each line of the source as soon as it was read, as [`sessions`] answers a whole input. The output is always
/// the answers to lines at the source's front. If the sessions cannot be made, the source is not read and nothing is
/// written.
pub fn follow_sessions<S: Source, K: Sink>(
    alloc: Global,
    sessions: u64,
    entries: u64,
    source: &mut S,
    sink: &mut K,
) -> Result<Followed, AllocError>
    ensures followed { IfOk result (λ f. HasFollowed call_text FitsCall StepsAs (no_sessions sessions entries) f.end f.rest.items
        (S.left source.old) (S.left source.new) (K.written sink.old) (K.written sink.new)) }
    ensures none { OnErr result ((S.left source.new ≡ S.left source.old) × (K.written sink.new ≡ K.written sink.old)) }
{
    let made: Sessions = Sessions::new(alloc, sessions, entries)?;
    let start = SessionLines {
        sessions: made,
        closed: Vec::new(alloc),
    };
    follow(alloc, start, source, sink)
}
