// The handle of a blocking job.
ghost use Rattle.std.specs.Prelude.{◌≡◌};

/// The name of a job whose output was not asked for yet. Numbers count from 0 and are never given twice.
#[derive(Clone, Copy, Debug, PartialEq, Eq)]
pub struct JobHandle {
    job: u64,
}

impl JobHandle {
    /// Returns the handle of the job with this number.
    pub fn of_job(job: u64) -> JobHandle
        ensures { result.job ≡ job }
    {
        JobHandle { job }
    }

    /// Returns the job's number.
    pub fn job(&self) -> u64
        ensures { result ≡ self.now.job }
    {
        self.job
    }
}
