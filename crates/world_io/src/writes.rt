ghost use Rattle.std.specs.Prelude.{◌≡◌, ◌≤◌, OnOk};
ghost use Rattle.std.specs.Io.KnownBytes.{append_known};
ghost use Rattle.world_io.specs.Taken.{TookPrefix, CountsWrite, Said};

use crate::sink::{Failed, Sink};

/// Writes the bytes to the sink, piece by piece. `Failed` comes only where the count of the sink's faults rose, and then
/// the sink took a prefix of the bytes.
pub fn write_all<K: Sink>(bytes: &[u8], sink: &mut K) -> Result<(), Failed>
    ensures whole { OnOk result ((K.seen sink.new).taken ≡ append_known (K.seen sink.old).taken bytes.now) }
    ensures prefix { TookPrefix (K.seen sink.old).taken (K.seen sink.new).taken bytes.now }
    ensures said { Said (K.seen sink.old) (K.seen sink.new) bytes.now }
    ensures counts { CountsWrite result (K.seen sink.old).faults (K.seen sink.new).faults }
    ensures later { (K.seen sink.old).faults ≤ (K.seen sink.new).faults }
{
    let mut at = 0;
    while at < bytes.len() {
        at += sink.write(&bytes[at..])?;
    }
    Ok(())
}
