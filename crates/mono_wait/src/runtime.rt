// The runtime's context has the machine's waiting tasks.
ghost use Rattle.std.specs.Prelude.{refl};
ghost use Rattle.mono_rt.specs.Refinement.{hosting_of, Matches};
ghost use Rattle.mono_wait.specs.Runtime.{cx_watcher, parts_same_watcher, parts_same_stirred, wake_stirs};

use crate::machines::MachineContext;
use crate::waits::{JobWaitContext, RemoteWaitContext, SharedWaitContext, WaitContext};
use mono_blocking::{Job, ThreadPool};
use mono_inbox::Unpark;
use mono_joinword::Outcome;
use mono_rt::Cx;
use mono_task::SharedState;

impl<F: Drop, O: Outcome + Drop, P: ThreadPool + Drop, U: Unpark, W: SharedState + Drop> WaitContext
    for Cx<F, O, P, U, W> {
    ghost watcher = { cx_watcher W.lists W.names };

    ghost watches_sleeps = { λ c s. refl };

    ghost watches_tasks = { λ c u. refl };

    ghost wakes_stir = { λ c d t answer q. wake_stirs c.parts.tasks.tasks d.parts.tasks.tasks t q.0 };
}

impl<
    F: Drop,
    O: Outcome + Drop,
    P: ThreadPool + Drop,
    U: Unpark,
    W: SharedState + Drop,
> JobWaitContext for Cx<F, O, P, U, W>
where
    P::Job: Job<Unpark = U>,
{
    ghost watches_jobs = { λ c j. refl };
}

impl<
    F: Drop,
    O: Outcome + Drop,
    P: ThreadPool + Drop,
    U: Unpark,
    W: SharedState + Drop,
> RemoteWaitContext<U> for Cx<F, O, P, U, W> {
    ghost watches_threads = { λ c. refl };
}

impl<
    F: Drop,
    O: Outcome + Drop,
    P: ThreadPool + Drop,
    U: Unpark,
    W: SharedState + Drop,
> SharedWaitContext<W> for Cx<F, O, P, U, W> {
    ghost watches_places = { λ c p. refl };

    ghost watches_peers = { λ c. refl };
}

impl<
    F: Drop,
    O: Outcome + Drop,
    P: ThreadPool + Drop,
    U: Unpark,
    W: SharedState + Drop,
> MachineContext for Cx<F, O, P, U, W> {
    ghost stands = { λ c m. Matches O.output_number hosting_of c.parts m };

    ghost leads = { λ a b r. (r.parts.steps, r.parts.leads) };

    ghost same_watcher = { λ c m x t st is. parts_same_watcher O.output_number hosting_of c.parts m c.has_handed_out (W.lists c.shared) (W.names c.shared) x t st is };

    ghost same_stirred = { λ c m st. parts_same_stirred O.output_number hosting_of c.parts m c.parts.me st };
}
