ghost use Rattle.std.specs.Prelude.{◌≡◌, ◌≤◌, OnOk, length, take};
ghost use Rattle.std.specs.Io.KnownBytes.{append_known};
ghost use Rattle.world_io.specs.Taken.{CountsWrite};

use world_io::{Failed, Sink};

/// How many bytes a sink took, and whether a write failed.
#[derive(Drop)]
pub(crate) struct Counted {
    pub(crate) count: usize,
    pub(crate) outcome: Result<(), Failed>,
}

/// Writes the bytes to the sink, piece by piece. After a failed write it writes no more.
pub(crate) fn write_counted<K: Sink>(bytes: &[u8], sink: &mut K) -> Counted
    ensures within { result.count ≤ length bytes.now }
    ensures taken { (K.seen sink.new).taken ≡ append_known (K.seen sink.old).taken (take result.count bytes.now) }
    ensures whole { OnOk result.outcome (result.count ≡ length bytes.now) }
    ensures counts { CountsWrite result.outcome (K.seen sink.old).faults (K.seen sink.new).faults }
    ensures later { (K.seen sink.old).faults ≤ (K.seen sink.new).faults }
{
    let mut at = 0;
    while at < bytes.len() {
        match sink.write(&bytes[at..]) {
            Ok(count) => at += count,
            Err(failed) => {
                return Counted {
                    count: at,
                    outcome: Err(failed),
                };
            }
        }
    }
    Counted {
        count: at,
        outcome: Ok(()),
    }
}
