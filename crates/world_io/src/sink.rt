ghost use Rattle.std.specs.Prelude.{◌≤◌, ◌<◌, IfOk, length};
ghost use Rattle.world_io.specs.Seen.{SinkSeen};
ghost use Rattle.world_io.specs.Taken.{TakesFront, CountsWrite};

use thiserror::Error;

/// A write failed, and was counted as a fault. Nothing of the piece was taken.
#[derive(Clone, Copy, Debug, PartialEq, Eq, Error)]
#[error("the write failed")]
pub struct Failed;

/// What takes bytes: a file, a stream, or a buffer. It tells which bytes it has taken, or tells nothing, and counts its
/// faults in a count that never falls and stays at its last value.
pub trait Sink {
    /// The bytes taken so far, where that is told, and how many writes failed.
    ghost seen: { Self → SinkSeen };

    /// Takes a prefix of the piece and answers its length, at least 1 where the piece is not empty. `Failed` comes only
    /// where the count of faults rose, and then nothing is taken.
    fn write(&mut self, piece: &[u8]) -> Result<usize, Failed>
        ensures takes { TakesFront (seen self.old).taken (seen self.new).taken piece.now result }
        ensures within { IfOk result (λ n. n ≤ length piece.now) }
        ensures progress { IfOk result (λ n. 0 < length piece.now → 0 < n) }
        ensures counts { CountsWrite result (seen self.old).faults (seen self.new).faults }
        ensures later { (seen self.old).faults ≤ (seen self.new).faults };
}
