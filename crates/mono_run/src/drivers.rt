// One driver for scripts with and without workers.
use mono_driver::{Clock, Driver, DriverFault, Instant, StepDriver, ThreadDriver};
use mono_inbox::{Unpark, UnparkHandle};
use mono_model::Host;
use std::alloc::AllocError;
use std::time::Duration;

/// The driver of a script. Without workers it alone ends a wait; with workers its thread waits.
#[derive(Drop)]
pub enum ScriptDriver<C> {
    /// Never waits.
    Steps(StepDriver),
    /// Parks its thread, and reads the clock that it was given.
    Threads(ThreadDriver<C>),
}

/// The handle that ends a wait of a `ScriptDriver`.
#[derive(Drop)]
pub enum ScriptUnpark {
    /// There is no wait to end.
    Nothing,
    /// Unparks the thread that waits.
    Thread(UnparkHandle),
}

impl Unpark for ScriptUnpark {
    fn unpark<R: Host>(&self, rt: &R) {
        match self {
            ScriptUnpark::Nothing => {}
            ScriptUnpark::Thread(handle) => handle.unpark(rt),
        }
    }
}

/// Returns one more handle of the same driver.
impl Clone for ScriptUnpark {
    fn clone(&self) -> Result<ScriptUnpark, AllocError> {
        match self {
            ScriptUnpark::Nothing => Ok(ScriptUnpark::Nothing),
            ScriptUnpark::Thread(handle) => match handle.clone() {
                Ok(copy) => Ok(ScriptUnpark::Thread(copy)),
                Err(refused) => Err(refused),
            },
        }
    }
}

impl<C: Clock + Drop> Clock for ScriptDriver<C> {
    ghost use Rattle.mono_run.specs.ScriptDrivers as driving;

    ghost readings = { driving.readings_of C.readings };

    ghost time = { driving.time_of };

    ghost faults = { driving.faults_of };

    ghost parks = { driving.parks_of };

    ghost submits = { driving.submits_of };

    ghost can_fail = { driving.can_fail_of };

    fn now(&mut self) -> Instant {
        match self {
            ScriptDriver::Steps(driver) => driver.now(),
            ScriptDriver::Threads(driver) => driver.now(),
        }
    }
}

impl<C: Clock + Drop> Driver for ScriptDriver<C> {
    type Unpark = ScriptUnpark;

    fn submit<R: Host>(&mut self, rt: &R) -> Result<(), DriverFault> {
        match self {
            ScriptDriver::Steps(driver) => driver.submit(rt),
            ScriptDriver::Threads(driver) => driver.submit(rt),
        }
    }

    fn park<R: Host>(&mut self, rt: &R) -> Result<(), DriverFault> {
        match self {
            ScriptDriver::Steps(driver) => driver.park(rt),
            ScriptDriver::Threads(driver) => driver.park(rt),
        }
    }

    fn park_timeout<R: Host>(&mut self, rt: &R, longest: Duration) -> Result<(), DriverFault> {
        match self {
            ScriptDriver::Steps(driver) => driver.park_timeout(rt, longest),
            ScriptDriver::Threads(driver) => driver.park_timeout(rt, longest),
        }
    }

    fn unpark(&self) -> Result<ScriptUnpark, AllocError> {
        match self {
            ScriptDriver::Steps(_) => Ok(ScriptUnpark::Nothing),
            ScriptDriver::Threads(driver) => match driver.unpark() {
                Ok(handle) => Ok(ScriptUnpark::Thread(handle)),
                Err(refused) => Err(refused),
            },
        }
    }
}
