ghost use Rattle.std.specs.Prelude.{◌≡◌, ◌≤◌, None, IfOk, IsErrOf, vec_len};

use crate::counts::count_after_fault;
use crate::files::{FileNo, Files, WriteNo};
use crate::reads::read_within;
use std::alloc::Global;
use std::marker::Model;
use std::snapshot::Snapshot;
use std::{fs, rt};
use value_core::Text;

/// The files of the host. They tell nothing of what they hold, so a missing file answers `Failed`, as does a name that
/// is no text.
#[derive(Drop)]
pub struct HostFiles<'a, R: rt::Files + Drop> {
    host: &'a R,
    read_faults: u64,
    write_faults: u64,
    last_unread: Option<Snapshot<Text>>,
}

impl<'a, R: rt::Files + Drop> Model for HostFiles<'a, R> {
    ghost use Rattle.std.specs.Option.{option_map};
    ghost use Rattle.world_io.specs.HostFiles.{HostFaults};

    ghost Value = { HostFaults };

    ghost view = { λ f. record { of_reads = f.read_faults; of_writes = f.write_faults; last_unread = option_map (λ name. name.value) f.last_unread } };
}

impl<'a, R: rt::Files + Drop> HostFiles<'a, R> {
    /// The files that this runtime reaches. No fault has come yet.
    pub fn new(host: &'a R) -> Self
        ensures { result ≡ record { of_reads = 0; of_writes = 0; last_unread = None } }
    {
        HostFiles {
            host,
            read_faults: 0,
            write_faults: 0,
            last_unread: None,
        }
    }

    fn read_host(&self, alloc: Global, name: &Text, limit: usize) -> Result<Vec<u8>, FileNo>
        ensures within { IfOk result (λ bytes. vec_len bytes ≤ limit) }
        ensures not_absent { IsErrOf result FileNo.Absent → ⊥ }
    {
        let path = str::from_utf8(name.items()).map_err(|_| FileNo::Failed)?;
        let mut file = fs::open(self.host, path).map_err(|_| FileNo::Failed)?;
        read_within(alloc, &mut file, limit)
    }

    fn write_host(&self, name: &Text, bytes: &[u8]) -> Result<(), WriteNo>
        ensures not_memory { IsErrOf result WriteNo.Memory → ⊥ }
    {
        let path = str::from_utf8(name.items()).map_err(|_| WriteNo::Failed)?;
        fs::write(self.host, path, bytes).map_err(|_| WriteNo::Failed)
    }
}

impl<'a, R: rt::Files + Drop> Files for HostFiles<'a, R> {
    ghost seen = { λ f. record { held = None; read_faults = f.of_reads; write_faults = f.of_writes; last_unread = f.last_unread } };

    fn read(&mut self, alloc: Global, name: &Text, limit: usize) -> Result<Vec<u8>, FileNo> {
        let answer = self.read_host(alloc, name, limit);
        if let Err(FileNo::Failed) = answer {
            self.read_faults = count_after_fault(self.read_faults);
            self.last_unread = Some(Snapshot::of(name));
        }
        answer
    }

    fn write(&mut self, _alloc: Global, name: &Text, bytes: &[u8]) -> Result<(), WriteNo> {
        let answer = self.write_host(name, bytes);
        if answer.is_err() {
            self.write_faults = count_after_fault(self.write_faults);
        }
        answer
    }
}
