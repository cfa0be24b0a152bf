// A user's two jobs on a pool, on threads of their own.
use example_parts::pairs::both;
use mono_blocking::{DefaultThreadPool, Job, ThreadSpawner};
use mono_inbox::{Inbox, Parker, UnparkHandle};
use mono_joinword::Outcome;

/// A job that returns its number.
#[derive(Drop)]
struct Gives(u64);

impl Outcome for Gives {
    ghost output_number = { λ job. job.0 };

    fn number(&self) -> u64 {
        self.0
    }
}

impl Job for Gives {
    type Output = u64;

    type Unpark = UnparkHandle;

    fn run(self) -> u64 {
        self.0
    }
}

#[test]
fn two_jobs(rt: HostRuntime) {
    let alloc = rt.alloc();
    let parker = Parker::new(alloc).expect(&rt, "memory");
    let handle = parker.handle().expect(&rt, "memory");
    let inbox = Inbox::new(alloc, 2, handle).expect(&rt, "memory");
    let mut spawner = ThreadSpawner::new(alloc);
    let mut pool = DefaultThreadPool::new(&rt, alloc, 2, &mut spawner).expect(&rt, "memory");
    let outputs = both(&rt, alloc, &mut pool, &inbox, &parker, Gives(4), Gives(9));
    pool.close(&rt);
    spawner.join(&rt);
    assert!(rt; matches!(outputs, Ok((4, 9))));
}
