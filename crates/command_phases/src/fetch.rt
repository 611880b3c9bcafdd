ghost use Rattle.std.specs.Prelude.{◌≡◌, ◌≤◌};
ghost use Rattle.command_phases.specs.Fetch.{Fetches};

use std::alloc::Global;
use thiserror::Error;
use value_core::Text;
use world_io::{FileNo, Files};

/// What a file holds: its bytes, or more of them than were asked for.
#[derive(Drop)]
pub(crate) enum Fetched {
    Bytes(Vec<u8>),
    TooLong,
}

/// Why a file was not read.
#[derive(Clone, Copy, Debug, PartialEq, Eq, Error)]
pub(crate) enum FetchNo {
    /// Nothing is held under the name, or the files counted a fault.
    #[error("the file was not read")]
    NotRead,
    /// There is no memory.
    #[error("out of memory")]
    Memory,
}

/// The bytes of the file under that name, if they are at most `limit`.
pub(crate) fn fetch<F: Files>(
    alloc: Global,
    files: &mut F,
    name: &Text,
    limit: usize,
) -> Result<Fetched, FetchNo>
    ensures fetches { Fetches name.now limit (F.seen files.old) (F.seen files.new) result }
    ensures later { (F.seen files.old).read_faults ≤ (F.seen files.new).read_faults }
    ensures writes { (F.seen files.new).write_faults ≡ (F.seen files.old).write_faults }
    ensures same { (F.seen files.new).held ≡ (F.seen files.old).held }
{
    match files.read(alloc, name, limit) {
        Ok(bytes) => Ok(Fetched::Bytes(bytes)),
        Err(FileNo::TooLong) => Ok(Fetched::TooLong),
        Err(FileNo::Failed) => Err(FetchNo::NotRead),
        Err(FileNo::Absent) => Err(FetchNo::NotRead),
        Err(FileNo::Memory) => Err(FetchNo::Memory),
    }
}
