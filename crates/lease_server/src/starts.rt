// The start of the cores.
ghost use Rattle.std.specs.Prelude.{◌≡◌, ◌⊎◌, ◌+◌, ◌<◌, ◌≤◌, [], length};
ghost use Rattle.mono_channel.specs.Delivery.{all_shares};
ghost use Rattle.mono_channel.specs.Ends.{shares_of, closed, IsPair};
ghost use Rattle.lease_server.specs.Dispatch.{Holds};
ghost use Rattle.lease_server.specs.Threads.{ArePaired, AreNumbered, Promises, Starts};

use crate::core_threads::core_thread;
use crate::dispatchers::Dispatcher;
use crate::status;
use crate::texts::Text;
use crate::threads::{CoreThread, Place, Serves};
use crate::words::Settings;
use lease_core::Request;
use mono_channel::{Receiver, Sender, channel};
use mono_rt::{Host, UnparkHandle};
use std::alloc::Global;
use std::snapshot::Snapshot;
use std::thread;

/// The places of each channel: batches of requests, and texts of replies.
pub const PLACES: usize = 16;

// Starts a core of this number over these ends: in a thread, or if none can be made, here, where it ends at once. Then the
// sender of its requests is closed first, so that it gets none.
fn start_thread<R: Host + Copy + Send + 'static>(
    rt: R,
    alloc: Global,
    number: u64,
    settings: &Settings,
    sender: &mut Sender<Vec<Request>, UnparkHandle>,
    requests: Receiver<Vec<Request>, UnparkHandle>,
    texts: Sender<Text, UnparkHandle>,
) -> CoreThread
    ensures promised { Promises number settings.now.sizes requests texts result }
    ensures sender { closed sender.new ≡ closed sender.old }
{
    let own = *settings;
    let promise = Serves {
        number,
        sizes: own.sizes,
        requests: Snapshot::of(&requests),
        texts: Snapshot::of(&texts),
    };
    let noted = Snapshot::of(&promise);
    match thread::spawn_with(
        &rt,
        promise,
        move || core_thread(rt, alloc, number, own, requests, texts),
    ) {
        Ok(thread) => CoreThread {
            promise: noted,
            place: Place::Thread(thread),
        },
        Err(failed) => {
            sender.close(&rt);
            let run = failed.value;
            CoreThread {
                promise: noted,
                place: Place::Ended(run()),
            }
        }
    }
}

// Starts a core, and keeps its lane. Returns a status: `THREAD` if the core got no thread, and has ended.
fn start_core<R: Host + Copy + Send + 'static>(
    rt: R,
    alloc: Global,
    number: u64,
    settings: &Settings,
    dispatcher: &mut Dispatcher,
    threads: &mut Vec<CoreThread>,
) -> u64
    requires { 1 < shares_of dispatcher.old.refusals.outlet.sender }
    ensures started { Starts result number settings.now.sizes threads.old.items dispatcher.old threads.new.items dispatcher.new }
    ensures same { IsPair dispatcher.new.refusals.outlet.sender dispatcher.old.refusals.outlet.sender }
    ensures holds { Holds [] dispatcher.old → Holds [] dispatcher.new }
{
    let Ok(_) = dispatcher.reserve() else {
        return status::MEMORY;
    };
    if threads.reserve(1).is_err() {
        return status::MEMORY;
    }
    let Ok((mut sender, requests)) = channel(alloc, PLACES) else {
        return status::MEMORY;
    };
    let Ok(texts) = dispatcher.texts(&rt) else {
        return status::MEMORY;
    };
    let thread = start_thread(rt, alloc, number, settings, &mut sender, requests, texts);
    let has_thread = thread.has_thread();
    dispatcher.add(alloc, sender);
    threads.push_reserved(thread);
    thread_status(has_thread)
}

// Returns `DONE` if there is a thread.
fn thread_status(has_thread: bool) -> u64
    ensures { (result ≡ 0) ⊎ (result ≡ 7) }
{
    if has_thread {
        status::DONE
    } else {
        status::THREAD
    }
}

/// Starts each core. Returns a status.
pub fn start_cores<R: Host + Copy + Send + 'static>(
    rt: R,
    alloc: Global,
    settings: &Settings,
    dispatcher: &mut Dispatcher,
    threads: &mut Vec<CoreThread>,
) -> u64
    requires none { (threads.old.items ≡ []) × (dispatcher.old.lanes.items ≡ []) }
    requires shares { shares_of dispatcher.old.refusals.outlet.sender ≡ all_shares }
    ensures paired { ArePaired dispatcher.old.refusals.outlet.sender threads.new.items dispatcher.new.lanes.items }
    ensures numbered { AreNumbered 0 settings.now.sizes threads.new.items × (length threads.new.items ≤ settings.now.cores) }
    ensures all { result ≡ 0 → length threads.new.items ≡ settings.now.cores }
    ensures shares { shares_of dispatcher.new.refusals.outlet.sender + length threads.new.items ≡ all_shares }
    ensures same { IsPair dispatcher.new.refusals.outlet.sender dispatcher.old.refusals.outlet.sender }
    ensures holds { Holds [] dispatcher.old → Holds [] dispatcher.new }
    ensures status { (result ≡ 0) ⊎ (result ≡ 6) ⊎ (result ≡ 7) }
{
    for number in 0..settings.cores {
        let status = start_core(rt, alloc, number, settings, dispatcher, threads);
        if status != status::DONE {
            return status;
        }
    }
    status::DONE
}
