//! Parts that two threads look at under a lock.
use super::files::{LOG, TOPIC};
use std::sync::{Mutex, Wait};
use std::thread::{self, Threads};
use txn_base::{Limits, PartState};
use txn_buffer::Topic;
use txn_coordinator::Coordinator;
use txn_ledger::Ledger;

fn look_at_topic<R: Threads + Wait + Sync>(
    rt: &R,
    topic: &Mutex<Topic<Ledger>>,
) -> (u64, PartState) {
    thread::join(
        rt,
        move || topic.lock(rt).limit(),
        move || topic.lock(rt).state(),
    )
}

fn look_at_coordinator<R: Threads + Wait + Sync>(
    rt: &R,
    coordinator: &Mutex<Coordinator<Ledger>>,
) -> (u64, PartState) {
    thread::join(
        rt,
        move || coordinator.lock(rt).count(),
        move || coordinator.lock(rt).state(),
    )
}

#[test]
fn parts_cross_threads_under_a_lock(rt: HostRuntime) {
    let none_yet = (0, PartState::Mending { at: 0, total: 0 });
    let log = Ledger::empty(rt.alloc(), TOPIC);
    let Ok(topic) = Topic::over(rt.alloc(), log, 1, &Limits::standard()) else {
        panic!(rt; "no memory");
    };
    assert_eq!(rt; look_at_topic(&rt, &Mutex::new(topic)), none_yet);

    let log = Ledger::empty(rt.alloc(), LOG);
    let Ok(coordinator) = Coordinator::over(rt.alloc(), log, &Limits::standard()) else {
        panic!(rt; "no memory");
    };
    assert_eq!(rt;
        look_at_coordinator(&rt, &Mutex::new(coordinator)),
        none_yet
    );
}
