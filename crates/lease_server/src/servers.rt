// The server: a router, a writer, and a runtime for each core.
ghost use Rattle.std.specs.Prelude.{◌≡◌, ◌⊎◌, ◌+◌, ◌<◌, ◌≤◌, ◌++◌, ◌∷◌, [], List, length, true, IfOk};
ghost use Rattle.mono_channel.specs.Beginnings.{Begun};
ghost use Rattle.mono_channel.specs.Delivery.{Interleaves, all_shares};
ghost use Rattle.mono_channel.specs.Ends.{sent_by, received_by, settled_by, shares_of, IsPair};
ghost use Rattle.lease_server.specs.declared.texts.Text.{Text};
ghost use Rattle.lease_server.specs.Dispatch.{Holds};
ghost use Rattle.lease_server.specs.EndToEnd.{HasServed, HasServedLines, HasServedPart, HasBegunOutput, SaysWhich};
ghost use Rattle.lease_server.specs.Routers.{LeadsOn};
ghost use Rattle.lease_server.specs.Threads.{IsStarted, ArePaired, AreNumbered, Starts, HasAnswered, HaveAnswered, HasBegun, HaveBegun, Routes, EndsAs, Settles};

use crate::core_threads::CoreEnd;
use crate::dispatchers::Dispatcher;
use crate::intakes::Intake;
use crate::lanes::Lane;
use crate::router::run_router;
use crate::starts::{PLACES, start_cores};
use crate::status;
use crate::texts::Text;
use crate::threads::CoreThread;
use crate::words::Settings;
use crate::writer::{Writes, Wrote, write_texts};
use mono_channel::{Receiver, Sender, channel};
use mono_rt::{Host, UnparkHandle};
use mono_text::{Sink, Source};
use std::alloc::{AllocError, Global};
use std::snapshot::Snapshot;
use std::thread;

// The bytes that are read at a time.
const BLOCK: usize = 65536;

// Returns a block of zeros. Its contract specifies its length alone, so that no proof computes the block.
fn zeros(alloc: Global, len: usize) -> Result<Vec<u8>, AllocError>
    ensures { IfOk result (λ block. length block.items ≡ len) }
{
    vec![in alloc; 0u8; len]
}

// Returns a block of zeros. If out of memory, it is empty: then the router's first read fails.
fn block(alloc: Global) -> Vec<u8> {
    match zeros(alloc, BLOCK) {
        Ok(block) => block,
        Err(_) => Vec::new(alloc),
    }
}

// What was routed: a status, the source, the channels, and the cores.
#[derive(Drop)]
struct Routed<S> {
    status: u64,
    source: S,
    dispatcher: Dispatcher,
    threads: Vec<CoreThread>,
}

// Returns the status of a router: that with which the cores were started, or that of the intake. Its task ended with the
// second one.
fn routed_status(started: u64, ended: u64, last: u64) -> u64
    ensures failed { (started ≡ 0 → ⊥) → result ≡ started }
    ensures routed { started ≡ 0 → (result ≡ last) ⊎ (result ≡ 6) }
{
    if started != status::DONE {
        return started;
    }
    if ended == status::DONE || last != status::DONE {
        last
    } else {
        status::MEMORY
    }
}

// Starts the cores, routes the input and closes the channels to the cores and to the writer.
fn route_all<R: Host + Copy + Send + 'static, S: Source + Drop>(
    rt: R,
    alloc: Global,
    settings: &Settings,
    source: S,
    texts: Sender<Text, UnparkHandle>,
) -> Routed<S>
    requires { (sent_by texts ≡ []) × (shares_of texts ≡ all_shares) }
    ensures paired { ArePaired texts result.threads.items result.dispatcher.lanes.items }
    ensures same { IsPair result.dispatcher.refusals.outlet.sender texts }
    ensures routed { Routes S.left S.faults settings.now.cores settings.now.sizes source result }
{
    let mut dispatcher = Dispatcher::new(alloc, texts);
    let mut threads = Vec::new(alloc);
    let started = start_cores(rt, alloc, settings, &mut dispatcher, &mut threads);
    let intake = Intake::new(source, block(alloc), dispatcher);
    let (ended, mut intake) = route_if(rt, alloc, started, intake);
    intake.close(&rt);
    let status = routed_status(started, ended, intake.end());
    let (source, dispatcher) = intake.into_parts();
    Routed {
        status,
        source,
        dispatcher,
        threads,
    }
}

// Runs the router if this status is `DONE`. Returns a status, and the intake.
fn route_if<R: Host + Copy, S: Source + Drop>(
    rt: R,
    alloc: Global,
    status: u64,
    intake: Intake<S>,
) -> (u64, Intake<S>)
    ensures led { LeadsOn S.left S.faults intake result.1 }
    ensures none { (status ≡ 0 → ⊥) → result.1 ≡ intake }
{
    if status == status::DONE {
        run_router(rt, alloc, intake)
    } else {
        (status, intake)
    }
}

// Starts no core and reads nothing, without a thread for the writer.
fn route_none<S: Source + Drop>(
    alloc: Global,
    settings: &Settings,
    source: S,
    texts: Sender<Text, UnparkHandle>,
) -> Routed<S>
    requires { (sent_by texts ≡ []) × (shares_of texts ≡ all_shares) }
    ensures paired { ArePaired texts result.threads.items result.dispatcher.lanes.items }
    ensures same { IsPair result.dispatcher.refusals.outlet.sender texts }
    ensures routed { Routes S.left S.faults settings.now.cores settings.now.sizes source result }
{
    Routed {
        status: status::THREAD,
        source,
        dispatcher: Dispatcher::new(alloc, texts),
        threads: Vec::new(alloc),
    }
}

// Returns whether no message is left. Then what was received interleaves what the settled senders sent, if they have all
// shares. In each case it does so with what is left.
fn is_empty<M: Drop, R: Host>(rt: &R, receiver: &mut Receiver<M, UnparkHandle>) -> bool
    ensures whole { result ≡ true → shares_of receiver.old ≡ all_shares → Interleaves (settled_by receiver.old) (received_by receiver.old) }
    ensures begun { Begun (shares_of receiver.old) (received_by receiver.old) (settled_by receiver.old) }
{
    receiver.learn();
    match receiver.try_recv(rt) {
        Ok(_) => false,
        Err(_) => true,
    }
}

// Joins a core, and settles the sender of its lane and its sender of texts. Returns whether the core ended well.
fn settle_core<R: Host>(
    rt: &R,
    thread: CoreThread,
    lane: Lane,
    texts: &mut Receiver<Text, UnparkHandle>,
) -> bool
    requires { IsStarted texts.old thread lane }
    ensures same { IsPair texts.new texts.old × (received_by texts.new ≡ received_by texts.old) }
    ensures shares { shares_of texts.new ≡ shares_of texts.old + 1 }
    ensures settled { (sent : List Text) × (settled_by texts.new ≡ settled_by texts.old ++ sent ∷ []) × HasBegun thread lane sent × (result ≡ true → HasAnswered thread lane sent) }
{
    let CoreEnd {
        status,
        mut requests,
        texts: sender,
    } = thread.join(rt);
    requests.settle(lane.into_sender());
    texts.settle(sender);
    is_empty(rt, &mut requests) && status == status::DONE
}

// Joins the cores, and settles their senders. Returns whether all ended well.
fn settle_cores<R: Host>(
    rt: &R,
    threads: Vec<CoreThread>,
    lanes: Vec<Lane>,
    texts: &mut Receiver<Text, UnparkHandle>,
) -> bool
    requires { ArePaired texts.old threads.items lanes.items }
    ensures same { IsPair texts.new texts.old × (received_by texts.new ≡ received_by texts.old) }
    ensures shares { shares_of texts.new ≡ shares_of texts.old + length threads.items }
    ensures settled { (sent : List (List Text)) × (settled_by texts.new ≡ settled_by texts.old ++ sent) × HaveBegun threads.items lanes.items sent × (result ≡ true → HaveAnswered threads.items lanes.items sent) }
{
    let mut ways = lanes.into_iter();
    let mut is_done = true;
    for thread in threads {
        let Some(lane) = ways.next() else {
            return false;
        };
        is_done = settle_core(rt, thread, lane, texts) && is_done;
    }
    is_done
}

/// What a server returns: a status, the source and the sink.
#[derive(Drop)]
pub struct Served<S, K> {
    pub status: u64,
    pub source: S,
    pub sink: K,
}

// Returns the status of a server, by those of the writer and of the router, and whether all else went well.
fn status_of(written: u64, routed: u64, is_done: bool) -> u64
    ensures ends { EndsAs written routed result }
    ensures done { (result ≡ 0) ⊎ (result ≡ 4) → written ≡ 0 → is_done ≡ true }
{
    if written != status::DONE {
        return written;
    }
    if !is_done && (routed == status::DONE || routed == status::READ) {
        return status::MEMORY;
    }
    routed
}

// Joins the cores, settles all senders, and looks at each channel once more.
fn settle_all<R: Host, S: Drop, K: Drop>(rt: &R, routed: Routed<S>, wrote: Wrote<K>) -> Served<S, K>
    requires same { IsPair routed.dispatcher.refusals.outlet.sender wrote.texts }
    requires paired { ArePaired wrote.texts routed.threads.items routed.dispatcher.lanes.items }
    ensures { Settles routed wrote result }
{
    let Routed {
        status,
        source,
        dispatcher,
        threads,
    } = routed;
    let Wrote {
        status: written,
        mut texts,
        sink,
    } = wrote;
    let (lanes, refusals) = dispatcher.into_parts();
    texts.settle(refusals.into_sender());
    let is_done = settle_cores(rt, threads, lanes, &mut texts);
    let is_whole = is_empty(rt, &mut texts);
    Served {
        status: status_of(written, status, is_done && is_whole),
        source,
        sink,
    }
}

/// Serves a source of lines, and writes the replies to a sink. Returns a status, the source and the sink.
///
/// If the status is `DONE`, all input was read, and the bytes written are the lines of the answers (`served`). These
/// interleave the refusals and the cores' replies. Each core's replies are those of one run of its model, from a new core
/// to the end of the input. The requests of that run are exactly those of the lines whose key has that core, in order.
/// If it is `READ`, the same holds of all lines that were read whole (`cut`).
///
/// Whatever the status, the bytes written are a beginning of such an output for the whole input (`whole`), in whole lines
/// but for the last. They answer no line that was not read (`begun`): they have a beginning of the refusals and of each
/// core's replies. The status says what failed (`says`).
pub fn serve<R, S, K>(rt: R, alloc: Global, settings: &Settings, source: S, sink: K) -> Served<S, K>
where
    R: Host + Copy + Send + 'static,
    S: Source + Drop,
    K: Sink + Drop + Send + 'static,
    ensures served { result.status ≡ 0 → HasServed settings.now.cores settings.now.sizes (S.left source) (S.left result.source) (K.written sink) (K.written result.sink) }
    ensures cut { result.status ≡ 4 → HasServedLines settings.now.cores settings.now.sizes (S.left source) (S.left result.source) (K.written sink) (K.written result.sink) }
    ensures begun { HasServedPart settings.now.cores settings.now.sizes (S.left source) (S.left result.source) (K.written sink) (K.written result.sink) }
    ensures whole { HasBegunOutput settings.now.cores settings.now.sizes (S.left source) (K.written sink) (K.written result.sink) }
    ensures says { SaysWhich result.status (S.faults source) (S.faults result.source) (K.faults sink) (K.faults result.sink) }
{
    let Ok((mut texts, written)) = channel(alloc, PLACES) else {
        return Served {
            status: status::MEMORY,
            source,
            sink,
        };
    };
    let promise = Writes {
        texts: Snapshot::of(&written),
        sink: Snapshot::of(&sink),
    };
    match thread::spawn_with(&rt, promise, move || write_texts(rt, alloc, written, sink)) {
        Ok(writer) => {
            let routed = route_all(rt, alloc, settings, source, texts);
            settle_all(&rt, routed, writer.join(&rt))
        }
        Err(failed) => {
            texts.close(&rt);
            let run = failed.value;
            let wrote = run();
            settle_all(&rt, route_none(alloc, settings, source, texts), wrote)
        }
    }
}
