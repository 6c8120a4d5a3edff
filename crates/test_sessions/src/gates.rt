// Gates that watch workers.
use std::sync::atomic::{AtomicU64, Ordering};
use zarrs_sharding::Gate;

const TURNS: u64 = 50_000_000;

// A gate that holds the workers of two subchunks, each until the other has come, but no more turns than `TURNS`.
#[derive(Drop)]
pub(crate) struct Meeting {
    subchunks: [u64; 2],
    come: AtomicU64,
    waited_in_vain: AtomicU64,
}

impl Meeting {
    pub(crate) fn new(subchunks: [u64; 2]) -> Self {
        Meeting {
            subchunks,
            come: AtomicU64::new(0),
            waited_in_vain: AtomicU64::new(0),
        }
    }

    // How many came to the gate, and how many of them left it alone.
    pub(crate) fn seen(&self) -> (u64, u64) {
        (
            self.come.load(Ordering::SeqCst),
            self.waited_in_vain.load(Ordering::SeqCst),
        )
    }
}

impl Gate for Meeting {
    fn pass(&self, number: u64) {
        if number != self.subchunks[0] && number != self.subchunks[1] {
            return;
        }
        self.come.fetch_add(1, Ordering::SeqCst);
        for _ in 0..TURNS {
            if self.come.load(Ordering::SeqCst) == 2 {
                return;
            }
        }
        self.waited_in_vain.fetch_add(1, Ordering::SeqCst);
    }
}

// A gate that counts the workers that pass it.
#[derive(Drop)]
pub(crate) struct Counted {
    passed: AtomicU64,
}

impl Counted {
    pub(crate) fn new() -> Self {
        Counted {
            passed: AtomicU64::new(0),
        }
    }

    pub(crate) fn passed(&self) -> u64 {
        self.passed.load(Ordering::SeqCst)
    }
}

impl Gate for Counted {
    fn pass(&self, _number: u64) {
        self.passed.fetch_add(1, Ordering::SeqCst);
    }
}
