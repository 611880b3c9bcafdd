ghost use Rattle.std.specs.Prelude.{◌≡◌, None};

use crate::counts::count_after_fault;
use crate::sink::{Failed, Sink};
use std::io::{Print, Stderr, Stdout};
use std::marker::Model;

/// A stream of the host as a sink. It tells nothing of the bytes that it took. A write that takes nothing of a piece
/// that is not empty counts as a fault.
#[derive(Drop)]
pub struct HostStream<P: Print + Drop> {
    stream: P,
    faults: u64,
}

impl<P: Print + Drop> Model for HostStream<P> {
    ghost use Rattle.std.specs.Prelude.{ℕ};

    ghost Value = { ℕ };

    ghost view = { λ s. s.faults };
}

/// The standard output, as a sink.
pub type HostOut = HostStream<Stdout>;

/// The standard error, as a sink.
pub type HostErr = HostStream<Stderr>;

impl<P: Print + Drop> HostStream<P> {
    /// A sink over this stream. No fault has come yet.
    pub fn new(stream: P) -> Self
        ensures { result ≡ 0 }
    {
        HostStream { stream, faults: 0 }
    }
}

impl<P: Print + Drop> Sink for HostStream<P> {
    ghost seen = { λ faults. record { taken = None; faults = faults } };

    fn write(&mut self, piece: &[u8]) -> Result<usize, Failed> {
        if piece.is_empty() {
            return Ok(0);
        }
        match self.stream.write_some(piece) {
            Ok(count) if count > 0 => Ok(count),
            _ => {
                self.faults = count_after_fault(self.faults);
                Err(Failed)
            }
        }
    }
}
