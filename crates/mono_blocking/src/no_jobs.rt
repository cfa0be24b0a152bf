// The job of a runtime that has none.

use crate::task::Job;
use mono_inbox::{NoUnpark, Unpark};
use mono_joinword::Outcome;
use std::marker::PhantomData;

/// A job that is never made: the type of the jobs of a runtime without blocking jobs. `U` is the driver's `Unpark`.
#[derive(Drop)]
pub struct NoJob<U = NoUnpark> {
    marker: PhantomData<U>,
}

impl<U> Outcome for NoJob<U> {
    ghost output_number = { λ _. 0 };

    fn number(&self) -> u64 {
        0
    }
}

impl<U: Unpark> Job for NoJob<U> {
    type Output = ();

    type Unpark = U;

    fn run(self) {}
}
