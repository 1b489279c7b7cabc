//! A gate that watches how it is called.
use lane_workers::Gate;
use std::sync::atomic::AtomicU64;
use std::sync::atomic::Ordering::SeqCst;

/// The number of the last call, whether that has begun and not ended, and how often the gate was called out of turn.
#[derive(Drop)]
pub struct Watching {
    pub last: AtomicU64,
    pub inside: AtomicU64,
    pub faults: AtomicU64,
}

impl Watching {
    /// A gate that wasn't called.
    pub fn new() -> Watching {
        Watching {
            last: AtomicU64::new(0),
            inside: AtomicU64::new(0),
            faults: AtomicU64::new(0),
        }
    }
}

impl Gate for Watching {
    fn before(&self, worker: u32, call: u64) {
        let in_turn = self.inside.swap(1, SeqCst) == 0 && self.last.swap(call, SeqCst) < call;
        if worker != 4 || !in_turn {
            self.faults.fetch_add(1, SeqCst);
        }
    }

    fn after(&self, worker: u32, call: u64) {
        let in_turn = self.inside.swap(0, SeqCst) == 1 && self.last.load(SeqCst) == call;
        if worker != 4 || !in_turn {
            self.faults.fetch_add(1, SeqCst);
        }
    }
}
