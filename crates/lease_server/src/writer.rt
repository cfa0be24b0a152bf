// The writing of the replies of all cores.
ghost use Rattle.std.specs.Prelude.{◌≡◌, ◌⊎◌, true, false};
ghost use Rattle.lease_server.specs.Answers.{answer_lines};
ghost use Rattle.lease_server.specs.Texts.{said_by};
ghost use Rattle.lease_server.specs.Printers.{FaultsIf, WritesIf, Leads, HasWrittenTexts};

use crate::status;
use crate::texts::Text;
use mono_channel::Receiver;
use mono_rt::{
    Host, NoPool, Poll, RemoteContext, RemoteWaker, Runtime, RuntimeBuilder, SharedContext,
    SharedState, SystemClock, TaskFuture, ThreadDriver, UnparkHandle,
};
use mono_text::{Sink, write_all};
use std::alloc::{AllocFailed, Global};
use std::marker::PhantomData;
use std::snapshot::Snapshot;
use std::thread::Promise;

/// The end from which texts are received, the sink to which they are written, and whether a write failed.
#[derive(Drop)]
pub struct Printer<K> {
    texts: Receiver<Text, UnparkHandle>,
    sink: K,
    has_failed: bool,
}

/// The receiver stays one of its channel. If all that was received was written before, it is so afterwards.
impl<K: Sink> SharedState for Printer<K> {
    ghost use Rattle.lease_server.specs.Printers.{leads_itself, leads_on};

    ghost leads = { Leads K.written K.faults };

    #[inline(always)]
    fn next_owed(&mut self) -> Option<u64> {
        None
    }

    ghost leads_itself = { leads_itself K.written K.faults };

    ghost leads_on = { leads_on K.written K.faults };

    ghost lists_some = { λ a p t is. is };
}

impl<K: Sink> Printer<K> {
    // Writes a text that was received. After a fault a beginning of it was written.
    fn print(&mut self, text: &Text)
        requires { self.old.has_failed ≡ false }
        ensures texts { self.new.texts ≡ self.old.texts }
        ensures written { WritesIf self.new.has_failed (K.written self.old.sink) (K.written self.new.sink) (answer_lines (said_by text.now)) }
        ensures faults { FaultsIf self.new.has_failed (K.faults self.old.sink) (K.faults self.new.sink) }
    {
        self.has_failed = write_all(&mut self.sink, text.bytes()).is_err();
    }

    // Receives a text and writes it. Returns a status if it is done: no text will come, or a failure.
    fn take<R: Host>(&mut self, rt: &R, waker: &RemoteWaker<UnparkHandle>) -> Poll<Option<u64>>
        ensures { Leads K.written K.faults self.old self.new }
    {
        if self.has_failed {
            return Poll::Ready(Some(status::WRITE));
        }
        match self.texts.poll_recv(rt, waker) {
            Poll::Pending => Poll::Pending,
            Poll::Ready(Ok(None)) => Poll::Ready(Some(status::DONE)),
            Poll::Ready(Err(_)) => Poll::Ready(Some(status::MEMORY)),
            Poll::Ready(Ok(Some(text))) => {
                self.print(&text);
                Poll::Ready(None)
            }
        }
    }

    /// Writes each text that comes, until it has to wait or is done. Returns a status.
    pub fn go_on<R: Host>(&mut self, rt: &R, waker: &RemoteWaker<UnparkHandle>) -> Poll<u64>
        ensures { Leads K.written K.faults self.old self.new }
    {
        for _ in 0..u64::MAX {
            match self.take(rt, waker) {
                Poll::Pending => return Poll::Pending,
                Poll::Ready(Some(status)) => return Poll::Ready(status),
                Poll::Ready(None) => {}
            }
        }
        Poll::Pending
    }

    // Returns the status of a printer whose task has ended with this status: a failed write, `DONE`, or out of memory.
    fn status(&self, ended: u64) -> u64
        ensures failed { self.now.has_failed ≡ true → result ≡ 5 }
        ensures going { self.now.has_failed ≡ false → (result ≡ 0) ⊎ (result ≡ 6) }
    {
        if self.has_failed {
            status::WRITE
        } else if ended == status::DONE {
            status::DONE
        } else {
            status::MEMORY
        }
    }
}

/// A task that writes each text that comes by the shared printer, until all senders are closed. It answers a status.
#[derive(Drop)]
pub struct Writer<K> {
    of: PhantomData<K>,
}

impl<C: RemoteContext<UnparkHandle> + SharedContext<Printer<K>>, K: Sink + Drop> TaskFuture<C>
    for Writer<K> {
    type Output = u64;

    fn spent(&self) -> bool {
        false
    }

    fn poll<R: Host>(&mut self, rt: &R, _alloc: Global, cx: &mut C) -> Poll<u64> {
        let Ok(waker) = cx.remote_waker() else {
            return Poll::Ready(status::MEMORY);
        };
        print_shared(rt, cx, &waker)
    }

    fn cancel(self, _cx: &mut C) {}
}

// Writes what comes by the shared printer.
fn print_shared<C: SharedContext<Printer<K>>, K: Sink, R: Host>(
    rt: &R,
    cx: &mut C,
    waker: &RemoteWaker<UnparkHandle>,
) -> Poll<u64>
    ensures { C.reaches cx.old cx.new }
{
    cx.shared_mut().go_on(rt, waker)
}

// The runtime of the writer. Its task shares the printer.
type WriterRuntime<R, K> = Runtime<
    Writer<K>,
    u64,
    ThreadDriver<SystemClock<R>>,
    NoPool,
    Printer<K>,
>;

// Runs the task of a writer on a new runtime of this thread. Returns its status, and the printer.
fn run_writer<R: Host + Copy, K: Sink + Drop>(
    rt: R,
    alloc: Global,
    printer: Printer<K>,
) -> (u64, Printer<K>)
    ensures { Leads K.written K.faults printer result.1 }
{
    let Ok(driver) = ThreadDriver::new(alloc, SystemClock::new(rt)) else {
        return (status::MEMORY, printer);
    };
    let builder: RuntimeBuilder<_, NoPool> = RuntimeBuilder::new(driver);
    let made: Result<WriterRuntime<R, K>, AllocFailed<Printer<K>>> = builder.build_sharing(
        alloc, printer,
    );
    match made {
        Err(failed) => (status::MEMORY, failed.value),
        Ok(mut runtime) => {
            let task = Writer { of: PhantomData };
            let status = runtime
                .block_on(&rt, alloc, task, u64::MAX)
                .unwrap_or(status::MEMORY);
            (status, runtime.into_shared())
        }
    }
}

/// What the writer's thread hands back: its status, and its ends.
#[derive(Drop)]
pub struct Wrote<K> {
    pub status: u64,
    pub texts: Receiver<Text, UnparkHandle>,
    pub sink: K,
}

/// The promise of the writer's thread: it writes what it receives from this end to this sink.
#[derive(Drop)]
pub struct Writes<K> {
    pub texts: Snapshot<Receiver<Text, UnparkHandle>>,
    pub sink: Snapshot<K>,
}

impl<K: Sink> Promise<Wrote<K>> for Writes<K> {
    ghost kept_by = { λ p wrote. HasWrittenTexts K.written K.faults p.texts.value p.sink.value wrote };
}

/// Writes each text that comes, on a runtime of this thread, until all senders are closed. Closes its end, and hands it
/// back with the sink.
///
/// If the status is `DONE`, the bytes of all texts that were received were written, in order. In each case a beginning
/// of them was written. The status is `WRITE` if and only if a write failed (`SaysWritten`).
pub fn write_texts<R: Host + Copy, K: Sink + Drop>(
    rt: R,
    alloc: Global,
    texts: Receiver<Text, UnparkHandle>,
    sink: K,
) -> Wrote<K>
    ensures { HasWrittenTexts K.written K.faults texts sink result }
{
    let printer = Printer {
        texts,
        sink,
        has_failed: false,
    };
    let (ended, printer) = run_writer(rt, alloc, printer);
    let status = printer.status(ended);
    let Printer {
        mut texts,
        sink,
        has_failed: _,
    } = printer;
    texts.close(&rt);
    Wrote {
        status,
        texts,
        sink,
    }
}
