// The thread of a core: a runtime, whose tasks share the core's station.
ghost use Rattle.std.specs.Prelude.{◌≡◌, IfOk, IfErr};
ghost use Rattle.lease_core.specs.Cores.{new_core};
ghost use Rattle.mono_rt.specs.Views.{shared_of};
ghost use Rattle.lease_server.specs.CoreRuns.{CalledOnce};
ghost use Rattle.lease_server.specs.Desks.{HasRun};
ghost use Rattle.mono_channel.specs.Ends.{closed};
ghost use Rattle.lease_server.specs.Stations.{Leads, IsNew, IsDone, EndsStation};
ghost use Rattle.lease_server.specs.CoreEnds.{HasEnded};

use crate::clocks::CoreClock;
use crate::cores::CoreTask;
use crate::desks::Desk;
use crate::stations::Station;
use crate::status::{self, worse};
use crate::texts::Text;
use crate::words::Settings;
use lease_core::{Core, Request};
use mono_channel::{Receiver, Sender};
use mono_rt::{Host, NoPool, Runtime, RuntimeBuilder, ThreadDriver, TimeDriver, UnparkHandle};
use std::alloc::{AllocFailed, Global};

// The runtime of a core. Its tasks share the station.
type CoreRuntime<R> = Runtime<
    CoreTask,
    u64,
    TimeDriver<ThreadDriver<CoreClock<R>>>,
    NoPool,
    Station,
>;

/// A core whose thread has ended: its status, and the ends of its channels, which are closed.
#[derive(Drop)]
pub struct CoreEnd {
    pub status: u64,
    pub requests: Receiver<Vec<Request>, UnparkHandle>,
    pub texts: Sender<Text, UnparkHandle>,
}

// Runs the task of a core on a new runtime of this thread, by one call of `block_on`. Returns its status, and the runtime
// (`called`). All that the core did leads from the station that was given (`led`), which comes back if out of memory.
fn call_core<R: Host + Copy>(
    rt: R,
    alloc: Global,
    settings: &Settings,
    station: Station,
) -> Result<(u64, CoreRuntime<R>), AllocFailed<Station>>
    ensures called { IfOk result (λ done. CalledOnce done.0 done.1) }
    ensures led { IfOk result (λ done. Leads station (shared_of done.1)) }
    ensures back { IfErr result (λ failed. failed.value ≡ station) }
{
    let Ok(driver) = ThreadDriver::new(alloc, CoreClock::new(rt, settings.is_still)) else {
        return Err(AllocFailed { value: station });
    };
    let builder: RuntimeBuilder<_, NoPool> = RuntimeBuilder::new(TimeDriver::new(driver));
    let mut runtime: CoreRuntime<R> = builder.build_sharing(alloc, station)?;
    let status = runtime
        .block_on(&rt, alloc, CoreTask::new(), u64::MAX)
        .unwrap_or(status::MEMORY);
    Ok((status, runtime))
}

// Runs a core from this station. Returns a status, and the station. If the core did nothing before, all that it did is one
// run of the model from a new core (`ran`).
fn run_core<R: Host + Copy>(
    rt: R,
    alloc: Global,
    settings: &Settings,
    station: Station,
) -> (u64, Station)
    ensures led { Leads station result.1 }
    ensures ran { IsNew settings.now.sizes station → HasRun station.desk.number (new_core settings.now.sizes) result.1.desk }
{
    match call_core(rt, alloc, settings, station) {
        Ok((status, runtime)) => (status, runtime.into_shared()),
        Err(failed) => (status::MEMORY, failed.value),
    }
}

// Returns the status, or that memory ran out if the core is not done.
fn status_of(status: u64, station: &Station) -> u64
    ensures { result ≡ 0 → IsDone station.now }
{
    if station.is_done() {
        status
    } else {
        worse(status, status::MEMORY)
    }
}

// Closes the ends. The router and the writer learn it.
fn end_core<R: Host>(
    rt: &R,
    status: u64,
    requests: Receiver<Vec<Request>, UnparkHandle>,
    texts: Sender<Text, UnparkHandle>,
) -> CoreEnd
    ensures { (result.status ≡ status) × (result.requests ≡ closed requests) × (result.texts ≡ closed texts) }
{
    let mut requests = requests;
    let mut texts = texts;
    requests.close(rt);
    texts.close(rt);
    CoreEnd {
        status,
        requests,
        texts,
    }
}

// Ends the core of this station.
fn end_station<R: Host>(rt: &R, status: u64, station: Station) -> CoreEnd
    ensures { EndsStation station result }
{
    let status = status_of(status, &station);
    let Station {
        desk: _,
        requests,
        texts,
        stage: _,
    } = station;
    end_core(rt, status, requests, texts.into_sender())
}

/// Runs the core of this number over these ends on a runtime of this thread. Returns its status and its ends, closed, also
/// if out of memory.
///
/// If the status is `DONE`, one run of the core's model, from a new core to the end of the input, answers the requests of
/// all batches that were received, in order. The texts that were sent say its replies, in order.
pub fn core_thread<R: Host + Copy>(
    rt: R,
    alloc: Global,
    number: u64,
    settings: Settings,
    requests: Receiver<Vec<Request>, UnparkHandle>,
    texts: Sender<Text, UnparkHandle>,
) -> CoreEnd
    ensures { HasEnded number settings.sizes requests texts result }
{
    match Core::new(alloc, &settings.sizes) {
        Ok(core) => {
            let first = Station::new(Desk::new(core, number), requests, texts);
            let (status, last) = run_core(rt, alloc, &settings, first);
            end_station(&rt, status, last)
        }
        Err(_) => end_core(&rt, status::MEMORY, requests, texts),
    }
}
