// Tasks whose table and queue grow.
use mono_task::Tasks;
use std::alloc::Global;

/// Returns whether three hundred tasks are spawned in order.
fn spawns_all(alloc: Global, tasks: &mut Tasks<u64>) -> bool {
    for number in 0..300u64 {
        if tasks.spawn(alloc) != Ok(number) {
            return false;
        }
    }
    true
}

#[test]
fn many(rt: HostRuntime) {
    let mut tasks: Tasks<u64> = Tasks::new(rt.alloc(), 300).expect(&rt, "memory");
    assert!(rt; spawns_all(rt.alloc(), &mut tasks) && tasks.queue_len() == 300);
}
