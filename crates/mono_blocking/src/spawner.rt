// Spawners, which start the threads of a pool's workers.
ghost use Rattle.std.specs.Prelude.{◌≡◌, ℕ, IfNone, IfSome, OnErr, OnOk, ⊤};
ghost use Rattle.mono_blocking.specs.Counts.{counted_by, HasRisen};

use crate::task::Job;
use crate::worker::Worker;
use mono_model::Host;
use std::thread;
use std::thread::JoinHandle;

/// A start that was refused, for an unnamed reason. The worker was dropped, and the count of refusals rose.
#[derive(Clone, Copy, Debug, PartialEq, Eq)]
pub struct StartFault;

/// The code that a thread runs before its worker.
pub trait Entry: Send + Drop {
    /// Runs once, on the thread.
    fn enter(self);
}

/// The thread runs its worker at once.
impl Entry for () {
    fn enter(self) {}
}

/// A value that starts threads. A caller that has a worker calls `start`.
///
/// A spawner decides three things: whether a thread may be made (`admit`), how the thread is kept (`keep`), and the
/// effect of a refusal (`refuse`). The thread itself is started in `start`, since only a function that knows the job's
/// type may pass a worker to a thread.
pub trait Spawner {
    /// The code that its threads run first.
    type Entry: Entry + 'static;

    /// How often a start was asked for, at most 2^64 - 1.
    ghost starts: { Self → ℕ };

    /// How often a start was refused, which never falls. A count of 2^64 - 1 counts as risen.
    ghost refusals: { Self → ℕ };

    /// Whether one more thread can be kept.
    ghost can_keep: { Self → Type 0 } = { λ _. ⊤ };

    /// What holds of a spawner that has just admitted a start: ⊥ if it admits none.
    ghost has_admitted: { Self → Type 0 } = { λ _. ⊤ };

    /// Counts a start, and returns the code that the thread runs first. Returns `None`, and counts a refusal, if no
    /// thread may be made.
    fn admit(&mut self) -> Option<Self::Entry>
        ensures starts { starts self.new ≡ counted_by 1 (starts self.old) }
        ensures admitted { IfSome result (λ _. can_keep self.new × (refusals self.new ≡ refusals self.old)) }
        ensures granted { IfSome result (λ _. has_admitted self.new) }
        ensures refused { IfNone result (refusals self.new ≡ counted_by 1 (refusals self.old)) };

    /// Keeps the thread that was made for an admitted start.
    fn keep(&mut self, thread: JoinHandle<()>)
        requires { can_keep self.old }
        ensures starts { starts self.new ≡ starts self.old }
        ensures refusals { refusals self.new ≡ refusals self.old };

    /// Counts a refusal: no thread could be made for an admitted start.
    fn refuse(&mut self)
        ensures starts { starts self.new ≡ starts self.old }
        ensures refusals { refusals self.new ≡ counted_by 1 (refusals self.old) };

    /// Starts a thread that runs the worker. The count of starts rises by one, at most to 2^64 - 1, for each answer
    /// (`starts`). The count of refusals rises by one if the start is refused, and stays otherwise (`refused`,
    /// `granted`). So a start is refused only if that count rose in this call (`rose`). A spawner that admits no start
    /// refuses each (`admits`). A refused start drops its worker.
    final fn start<R: Host + Send + 'static, J: Job + Send + 'static>(
        &mut self,
        rt: &R,
        worker: Worker<J>,
    ) -> Result<(), StartFault>
    where
        J::Output: Send + 'static,
        J::Unpark: Send + Sync + 'static,
        ensures starts { starts self.new ≡ counted_by 1 (starts self.old) }
        ensures refused { OnErr result (refusals self.new ≡ counted_by 1 (refusals self.old)) }
        ensures rose { OnErr result (HasRisen (refusals self.old) (refusals self.new)) }
        ensures granted { OnOk result (refusals self.new ≡ refusals self.old) }
        ensures admits { OnOk result ((spawner : Self) × has_admitted spawner) }
    {
        let Some(entry) = self.admit() else {
            return Err(StartFault);
        };
        match start_thread(rt, entry, worker) {
            Ok(thread) => {
                self.keep(thread);
                Ok(())
            }
            Err(fault) => {
                self.refuse();
                Err(fault)
            }
        }
    }
}

// Spawns a thread for the worker.
fn start_thread<R: Host + Send + 'static, E: Entry + 'static, J: Job + Send + 'static>(
    rt: &R,
    entry: E,
    worker: Worker<J>,
) -> Result<JoinHandle<()>, StartFault>
where
    J::Output: Send + 'static,
    J::Unpark: Send + Sync + 'static,
{
    let Ok(theirs) = rt.clone() else {
        return Err(StartFault);
    };
    let body = move || {
        entry.enter();
        worker.run(&theirs)
    };
    match thread::spawn(rt, body) {
        Ok(thread) => Ok(thread),
        Err(_) => Err(StartFault),
    }
}
