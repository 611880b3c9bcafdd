ghost use Rattle.std.specs.Prelude.{◌≡◌, ◌≤◌, ℕ, OnOk, drop};
ghost use Rattle.std.specs.Io.KnownBytes.{append_known};
ghost use Rattle.world_io.specs.Taken.{CountsWrite, TookPrefix};

use crate::behind::bytes_from;
use crate::counted::write_counted;
use world_io::{Failed, Sink};

/// Writes the bytes to the sink, piece by piece. `Ok` comes only where it took exactly these bytes, and `Failed` only where its
/// count of faults rose; then it took a front of them, and nothing more is written.
pub fn write_out<K: Sink>(bytes: &[u8], sink: &mut K) -> Result<(), Failed>
    ensures whole { OnOk result ((K.seen sink.new).taken ≡ append_known (K.seen sink.old).taken bytes.now) }
    ensures prefix { TookPrefix (K.seen sink.old).taken (K.seen sink.new).taken bytes.now }
    ensures counts { CountsWrite result (K.seen sink.old).faults (K.seen sink.new).faults }
    ensures later { (K.seen sink.old).faults ≤ (K.seen sink.new).faults }
{
    write_counted(bytes, sink).outcome
}

/// Writes the bytes behind the first `written`, unless a write before failed. It answers whether all writes went well, that one
/// with them: its faults are counted from any count before it from which the write before was.
pub fn write_rest<K: Sink>(
    bytes: &[u8],
    written: u64,
    before: Result<(), Failed>,
    sink: &mut K,
) -> Result<(), Failed>
    ensures whole { OnOk result ((K.seen sink.new).taken ≡ append_known (K.seen sink.old).taken (drop written bytes.now)) }
    ensures prefix { TookPrefix (K.seen sink.old).taken (K.seen sink.new).taken (drop written bytes.now) }
    ensures counts { (first : ℕ) → CountsWrite before first (K.seen sink.old).faults → CountsWrite result first (K.seen sink.new).faults }
    ensures later { (K.seen sink.old).faults ≤ (K.seen sink.new).faults }
{
    match before {
        Ok(()) => write_out(bytes_from(bytes, written), sink),
        Err(failed) => Err(failed),
    }
}
