// Threads that wake the tasks of one inbox while another thread drains it.
use crate::parkers::handle_of;
use mono_inbox::*;
use mono_model::Host;
use std::alloc::{AllocError, Global};
use std::process::Abort;
use std::sync::Arc;
use std::sync::atomic::{AtomicU64, Ordering};
use std::thread;
use std::thread::JoinHandle;

const THREADS: u64 = 4;

const TASKS: usize = 8;

const ROUNDS: u64 = 500;

/// Wakes each task `rounds` times, and returns how many wakes were listed.
fn wake_often<U: Unpark, R: Host>(rt: &R, wakers: &Vec<RemoteWaker<U>>, rounds: u64) -> u64 {
    let mut listed = 0u64;
    for _ in 0..rounds {
        for waker in wakers {
            if waker.wake(rt) {
                listed = listed.wrapping_add(1);
            }
        }
    }
    listed
}

/// Starts a thread that wakes all tasks `rounds` times, then sets that it has finished, and then unparks.
fn start_waking<U: Unpark + Send + Sync + 'static, R: Host + Abort + Copy + Send + 'static>(
    rt: R,
    wakers: Vec<RemoteWaker<U>>,
    rounds: u64,
    finished: &Arc<AtomicU64, Global>,
    handle: UnparkHandle,
) -> JoinHandle<u64> {
    let finished = Arc::try_clone(finished).expect(&rt, "memory");
    let thread = thread::spawn(&rt, move || {
        let listed = wake_often(&rt, &wakers, rounds);
        finished.fetch_add(1, Ordering::SeqCst);
        handle.unpark(&rt);
        listed
    });
    thread.ok().expect(&rt, "a thread")
}

/// Starts all threads, each with wakers of its own for the same tasks.
fn start_all<R: Host + Abort + Copy + Send + 'static>(
    rt: R,
    alloc: Global,
    wakers: &Vec<RemoteWaker<UnparkHandle>>,
    parker: &Parker,
    finished: &Arc<AtomicU64, Global>,
) -> Vec<JoinHandle<u64>> {
    let mut threads = Vec::new(alloc);
    for _ in 0..THREADS {
        let wakers = wakers.clone().expect(&rt, "memory");
        let thread = start_waking(rt, wakers, ROUNDS, finished, handle_of(&rt, parker));
        threads.push(thread).expect(&rt, "memory");
    }
    threads
}

/// Counts each task of one drain. Returns false if a task occurs twice, or was never woken.
fn count_drained(tasks: &[u64], counts: &mut [u64; TASKS]) -> bool {
    let mut seen = [false; TASKS];
    for task in tasks {
        let place = *task as usize;
        if place >= TASKS || seen[place] {
            return false;
        }
        seen[place] = true;
        counts[place] = counts[place].wrapping_add(1);
    }
    true
}

/// Drains until all threads have finished, and once more. No drain may have a task twice or an unknown one.
fn drain_until_all_finished<R: Host + Abort>(
    rt: &R,
    alloc: Global,
    inbox: &Inbox<UnparkHandle>,
    parker: &Parker,
    finished: &AtomicU64,
    counts: &mut [u64; TASKS],
    tasks: &mut Vec<u64>,
) {
    for _ in rt.forever() {
        let is_last = finished.load(Ordering::SeqCst) == THREADS;
        inbox.drain(rt, alloc, tasks).expect(rt, "memory");
        assert!(rt; count_drained(tasks.as_slice(), counts));
        tasks.clear();
        if is_last {
            return;
        }
        parker.park(rt);
    }
}

/// Returns whether each task was drained, and all of them as often as the threads' wakes were listed.
fn all_were_drained<R: Host>(rt: &R, threads: Vec<JoinHandle<u64>>, counts: &[u64; TASKS]) -> bool {
    let mut listed = 0u64;
    for thread in threads {
        listed = listed.wrapping_add(thread.join(rt));
    }
    let mut drained = 0u64;
    let mut is_each = true;
    for count in counts {
        is_each = is_each & (*count > 0);
        drained = drained.wrapping_add(*count);
    }
    is_each & (drained == listed)
}

/// Returns a waker of each task.
fn wakers_of<R: Host + Abort>(
    rt: &R,
    alloc: Global,
    inbox: &Inbox<UnparkHandle>,
) -> Vec<RemoteWaker<UnparkHandle>> {
    let mut wakers = Vec::new(alloc);
    for task in 0..TASKS {
        let waker = inbox.waker(rt, alloc, task as u64).expect(rt, "memory");
        wakers.push(waker).expect(rt, "memory");
    }
    wakers
}

/// Lets all threads wake all tasks, and drains them.
fn wake_and_drain<R: Host + Abort + Copy + Send + 'static>(
    rt: R,
    alloc: Global,
    inbox: &Inbox<UnparkHandle>,
    parker: &Parker,
    tasks: &mut Vec<u64>,
) {
    let mut counts = [0u64; TASKS];
    let finished = Arc::new(alloc, AtomicU64::new(0)).expect(&rt, "memory");
    let wakers = wakers_of(&rt, alloc, inbox);
    let threads = start_all(rt, alloc, &wakers, parker, &finished);
    drain_until_all_finished(&rt, alloc, inbox, parker, &finished, &mut counts, tasks);
    let were_drained = all_were_drained(&rt, threads, &counts);
    inbox.drain(&rt, alloc, tasks).expect(&rt, "memory");
    assert!(rt; were_drained & tasks.is_empty());
}

#[test]
fn four_threads_wake_eight_tasks(rt: HostRuntime) {
    let mut tasks = Vec::new(rt.alloc());
    let parker = Parker::new(rt.alloc()).expect(&rt, "memory");
    let inbox = Inbox::new(rt.alloc(), 0, handle_of(&rt, &parker)).expect(&rt, "memory");
    wake_and_drain(rt, rt.alloc(), &inbox, &parker, &mut tasks);
}

/// A handle that unparks the thread that drains, and waits until that has drained.
#[derive(Drop)]
struct UnparksAndWaits {
    drainer: UnparkHandle,
    drained: Arc<Parker, Global>,
}

impl Clone for UnparksAndWaits {
    fn clone(&self) -> Result<UnparksAndWaits, AllocError> {
        Ok(UnparksAndWaits {
            drainer: self.drainer.clone()?,
            drained: Arc::try_clone(&self.drained)?,
        })
    }
}

impl Unpark for UnparksAndWaits {
    fn unpark<R: Host>(&self, rt: &R) {
        self.drainer.unpark(rt);
        self.drained.park(rt);
    }
}

/// Returns an inbox whose wakes unpark the first parker and wait for the second.
fn waiting_inbox<R: Abort>(
    rt: &R,
    alloc: Global,
    parker: &Parker,
    drained: &Arc<Parker, Global>,
) -> Inbox<UnparksAndWaits> {
    let unpark = UnparksAndWaits {
        drainer: handle_of(rt, parker),
        drained: Arc::try_clone(drained).expect(rt, "memory"),
    };
    Inbox::new(alloc, 0, unpark).expect(rt, "memory")
}

/// Wakes task 3 once by another thread, which ends once its task was drained.
fn wake_and_wait<R: Host + Abort + Copy + Send + 'static>(
    rt: R,
    alloc: Global,
    inbox: &Inbox<UnparksAndWaits>,
    parker: &Parker,
    drained: &Parker,
) {
    let finished = Arc::new(alloc, AtomicU64::new(0)).expect(&rt, "memory");
    let mut tasks = Vec::new(alloc);
    let mut wakers = Vec::new(alloc);
    let waker = inbox.waker(&rt, alloc, 3).expect(&rt, "memory");
    wakers.push(waker).expect(&rt, "memory");
    let other = start_waking(rt, wakers, 1, &finished, handle_of(&rt, drained));
    parker.park(&rt);
    inbox.drain(&rt, alloc, &mut tasks).expect(&rt, "memory");
    handle_of(&rt, drained).unpark(&rt);
    assert!(rt; (other.join(&rt) == 1) & (tasks.as_slice() == [3].as_slice()));
}

#[test]
fn a_wake_is_listed_before_it_unparks(rt: HostRuntime) {
    let parker = Parker::new(rt.alloc()).expect(&rt, "memory");
    let drained = Parker::new(rt.alloc()).expect(&rt, "memory");
    let drained = Arc::new(rt.alloc(), drained).expect(&rt, "memory");
    let inbox = waiting_inbox(&rt, rt.alloc(), &parker, &drained);
    wake_and_wait(rt, rt.alloc(), &inbox, &parker, &drained);
}

/// Counts the unparks.
#[derive(Drop)]
pub(crate) struct CountsUnparks(Arc<AtomicU64, Global>);

impl Clone for CountsUnparks {
    fn clone(&self) -> Result<CountsUnparks, AllocError> {
        Ok(CountsUnparks(Arc::try_clone(&self.0)?))
    }
}

impl Unpark for CountsUnparks {
    fn unpark<R: Host>(&self, _rt: &R) {
        self.0.fetch_add(1, Ordering::SeqCst);
    }
}

/// Returns a handle that counts its unparks, and the count.
pub(crate) fn counts_unparks<R: Abort>(
    rt: &R,
    alloc: Global,
) -> (CountsUnparks, Arc<AtomicU64, Global>) {
    let count = Arc::new(alloc, AtomicU64::new(0)).expect(rt, "memory");
    let ours = Arc::try_clone(&count).expect(rt, "memory");
    (CountsUnparks(ours), count)
}

#[test]
fn each_wake_unparks_once_and_no_other_call_does(rt: HostRuntime) {
    let alloc = rt.alloc();
    let (handle, count) = counts_unparks(&rt, alloc);
    let inbox = Inbox::new(alloc, 0, handle).expect(&rt, "memory");
    let waker = inbox.waker(&rt, alloc, 3).expect(&rt, "memory");
    assert_eq!(rt; count.load(Ordering::SeqCst), 0);
    assert!(rt; waker.wake(&rt));
    assert_eq!(rt; count.load(Ordering::SeqCst), 1);
    assert!(rt; !waker.wake(&rt));
    assert_eq!(rt; count.load(Ordering::SeqCst), 2);
    let mut tasks = Vec::new(alloc);
    inbox.drain(&rt, alloc, &mut tasks).expect(&rt, "memory");
    inbox.retire(&rt, 3);
    assert_eq!(rt; count.load(Ordering::SeqCst), 2);
    assert!(rt; !waker.wake(&rt));
    assert_eq!(rt; count.load(Ordering::SeqCst), 3);
    assert!(rt; tasks.as_slice() == [3].as_slice());
}

// A caller that could not drain relies on it: the task waits already, and perhaps nobody wakes it again.
#[test]
fn an_inbox_unparks_without_a_wake(rt: HostRuntime) {
    let alloc = rt.alloc();
    let (handle, count) = counts_unparks(&rt, alloc);
    let inbox = Inbox::new(alloc, 0, handle).expect(&rt, "memory");
    inbox.unpark(&rt);
    assert_eq!(rt; count.load(Ordering::SeqCst), 1);
    inbox.unpark(&rt);
    assert_eq!(rt; count.load(Ordering::SeqCst), 2);
}
