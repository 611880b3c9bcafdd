ghost use Rattle.std.specs.Prelude.{None};

use std::sync::atomic::{AtomicU64, Ordering};
use world_io::{Failed, Sink};

/// A sink that takes every byte and counts them. It tells nothing of them, and counts no fault.
#[derive(Drop)]
pub struct Counting<'a> {
    pub count: &'a AtomicU64,
}

impl<'a> Sink for Counting<'a> {
    ghost seen = { λ _. record { taken = None; faults = 0 } };

    fn write(&mut self, piece: &[u8]) -> Result<usize, Failed> {
        self.count.fetch_add(piece.len() as u64, Ordering::SeqCst);
        Ok(piece.len())
    }
}
