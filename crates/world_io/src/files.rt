ghost use Rattle.std.specs.Prelude.{◌≡◌, ◌≤◌, ◌<◌, ◌⊎◌, ℕ, List, IfOk, OnOk, IsOk, IsErrOf, vec_len, length};
ghost use Rattle.world_io.specs.Held.{told, IsHeld, IsSameBut, ExceedsLimit};
ghost use Rattle.world_io.specs.Seen.{FilesSeen};
ghost use Rattle.world_io.specs.Reads.{CountsRead, IsFree, unread_after};
ghost use Rattle.world_io.specs.Writes.{CountsFileWrite};

use std::alloc::Global;
use thiserror::Error;
use value_core::{Seq, Text};

/// A file: its name and its bytes.
#[derive(Drop)]
pub struct FileItem {
    pub name: Text,
    pub bytes: Text,
}

/// A list of files. Where several have one name, the first counts.
pub type FileList = Seq<FileItem>;

/// A list of the numbers of calls, from 0.
pub type CallList = Seq<u64>;

/// Why a read gave no bytes.
#[derive(Clone, Copy, Debug, PartialEq, Eq, Error)]
pub enum FileNo {
    /// The read failed, and was counted as a fault.
    #[error("the read failed")]
    Failed,
    /// Nothing is held under the name.
    #[error("there is no such file")]
    Absent,
    /// More bytes are held than the limit.
    #[error("the file is too long")]
    TooLong,
    /// There is no memory for the bytes.
    #[error("out of memory")]
    Memory,
}

/// Why a write was not done.
#[derive(Clone, Copy, Debug, PartialEq, Eq, Error)]
pub enum WriteNo {
    /// The write failed, and was counted as a fault. What the name holds then is open.
    #[error("the write failed")]
    Failed,
    /// There is no memory for the bytes. Nothing was written.
    #[error("out of memory")]
    Memory,
}

/// Files that a program reads and writes by their names. They hold bytes under names, where they tell that, and count the faults of
/// reads and of writes, each in a count that never falls and stays at its last value. They remember which name's read
/// failed last.
pub trait Files {
    /// What is held, where that is told, the counts of faults, and the name of the read that failed last.
    ghost seen: { Self → FilesSeen };

    /// The bytes held under the name, if they are at most `limit`. `Failed` comes only where the count of read faults
    /// rose, `Absent` only where it is told that nothing is held, and `TooLong` only where more than `limit` bytes are
    /// held, if that is told; `Memory` is free. Nothing that is held changes.
    fn read(&mut self, alloc: Global, name: &Text, limit: usize) -> Result<Vec<u8>, FileNo>
        ensures found { IfOk result (λ bytes. IsHeld (told (seen self.old).held name.now) bytes.items) }
        ensures within { IfOk result (λ bytes. vec_len bytes ≤ limit) }
        ensures absent { IsErrOf result FileNo.Absent → told (seen self.old).held name.now ≡ Some None }
        ensures too_long { IsErrOf result FileNo.TooLong → ExceedsLimit (told (seen self.old).held name.now) limit }

        // The converses: these are the only answers, but for a failure and for want of memory.
        ensures missing { told (seen self.old).held name.now ≡ Some None
            → IsErrOf result FileNo.Absent ⊎ IsFree result }
        ensures fits { (bytes : List ℕ) → told (seen self.old).held name.now ≡ Some (Some bytes)
            → length bytes ≤ limit → IsOk result ⊎ IsFree result }
        ensures exceeds { (bytes : List ℕ) → told (seen self.old).held name.now ≡ Some (Some bytes)
            → limit < length bytes → IsErrOf result FileNo.TooLong ⊎ IsFree result }

        // A failure raises the count of read faults, and no other answer does.
        ensures faults { CountsRead result (seen self.old).read_faults (seen self.new).read_faults }
        ensures later { (seen self.old).read_faults ≤ (seen self.new).read_faults }
        ensures unread { (seen self.new).last_unread ≡ unread_after name.now result (seen self.old).last_unread }
        ensures writes { (seen self.new).write_faults ≡ (seen self.old).write_faults }
        ensures same { (seen self.new).held ≡ (seen self.old).held };

    /// Puts the bytes under the name, in the place of those that are there. What other names hold stays. `Failed` comes
    /// only where the count of write faults rose, and then it is open what the name holds; for want of memory nothing
    /// changes. Whether it is told what is held stays as it was.
    fn write(&mut self, alloc: Global, name: &Text, bytes: &[u8]) -> Result<(), WriteNo>
        ensures written { OnOk result (IsHeld (told (seen self.new).held name.now) bytes.now) }
        ensures others { IsSameBut name.now (seen self.old).held (seen self.new).held }
        ensures memory { IsErrOf result WriteNo.Memory → (seen self.new).held ≡ (seen self.old).held }

        // A failure raises the count of write faults, and no other answer does.
        ensures faults { CountsFileWrite result (seen self.old).write_faults (seen self.new).write_faults }
        ensures later { (seen self.old).write_faults ≤ (seen self.new).write_faults }
        ensures reads { (seen self.new).read_faults ≡ (seen self.old).read_faults }
        ensures unread { (seen self.new).last_unread ≡ (seen self.old).last_unread };
}
