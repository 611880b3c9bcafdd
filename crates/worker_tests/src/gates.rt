use std::sync::atomic::{AtomicBool, AtomicU32, AtomicU64, Ordering};
use worker_gate::Gate;

// The pass that is held or noted, from 0, and how often it looks whether another one has begun.
const HELD: u32 = 3;

const LOOKS: u32 = 500_000_000;

/// A gate that holds the fourth pass until a fifth has begun.
#[derive(Drop)]
pub struct Holding {
    passes: AtomicU32,
    alone: AtomicBool,
}

impl Holding {
    pub fn new() -> Self {
        Holding {
            passes: AtomicU32::new(0),
            alone: AtomicBool::new(false),
        }
    }

    /// Whether a fifth pass began while the fourth was held.
    pub fn saw_two(&self) -> bool {
        !self.alone.load(Ordering::SeqCst) && self.passes.load(Ordering::SeqCst) > HELD + 1
    }
}

impl Gate for Holding {
    fn pass(&self, _worker: u32, _turn: u64) {
        if self.passes.fetch_add(1, Ordering::SeqCst) != HELD {
            return;
        }
        for _ in 0..LOOKS {
            if self.passes.load(Ordering::SeqCst) > HELD + 1 {
                return;
            }
        }
        self.alone.store(true, Ordering::SeqCst);
    }
}

/// A gate that notes at the fourth pass what a count is.
#[derive(Drop)]
pub struct Noting<'a> {
    passes: AtomicU32,
    count: &'a AtomicU64,
    noted: AtomicU64,
}

impl<'a> Noting<'a> {
    pub fn new(count: &'a AtomicU64) -> Self {
        Noting {
            passes: AtomicU32::new(0),
            count,
            noted: AtomicU64::new(0),
        }
    }

    /// What the count was at the fourth pass, and 0 where none came.
    pub fn noted(&self) -> u64 {
        self.noted.load(Ordering::SeqCst)
    }
}

impl<'a> Gate for Noting<'a> {
    fn pass(&self, _worker: u32, _turn: u64) {
        if self.passes.fetch_add(1, Ordering::SeqCst) == HELD {
            let count = self.count.load(Ordering::SeqCst);
            self.noted.store(count, Ordering::SeqCst);
        }
    }
}
