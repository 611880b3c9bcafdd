ghost use Rattle.std.specs.Prelude.{◌≡◌, ◌≢◌, ◌≤◌, ◌<◌, ◌⊎◌, ◌↔◌, ℕ, List, [], ◌∷◌, ◌++◌, Option, Some, None, position, IfOk, IfErr, OnOk, IsOk, IsErr, IsErrOf, vec_len, length};
ghost use Rattle.std.specs.Option.{option_copied};
ghost use Rattle.std.specs.Str.{bytes_eq};
ghost use Rattle.world_io.specs.Held.{file_under, told, IsHeld, ExceedsLimit};
ghost use Rattle.world_io.specs.FailPlan.{first_plan, plan_after, IsListed};
ghost use Rattle.world_io.specs.MemFiles.{faults_after, faults_after_write};
ghost use Rattle.world_io.specs.Reads.{CountsRead, IsFree, unread_after};

use crate::counts::count_after_fault;
use crate::fail_plan::FailPlan;
use crate::files::{CallList, FileItem, FileList, FileNo, Files, WriteNo};
use std::alloc::{AllocError, Global};
use std::marker::Model;
use std::snapshot::Snapshot;
use value_core::Text;

/// Files in memory. They tell what they hold, and fail at the calls that they are told to fail at.
#[derive(Drop)]
pub struct MemFiles {
    held: FileList,
    plan: FailPlan,
    read_faults: u64,
    write_faults: u64,
    last_unread: Option<Snapshot<Text>>,
}

impl Model for MemFiles {
    ghost use Rattle.std.specs.Option.{option_map};
    ghost use Rattle.world_io.specs.MemFiles.{FilesInMemory};

    ghost Value = { FilesInMemory };

    ghost view = { λ f. record { held = f.held; plan = f.plan; read_faults = f.read_faults; write_faults = f.write_faults; last_unread = option_map (λ name. name.value) f.last_unread } };
}

impl MemFiles {
    /// Files that hold these, of which the calls with these numbers, from 0, fail.
    pub fn new(held: FileList, fails: CallList) -> Self
        ensures { result ≡ record { held = held; plan = first_plan fails; read_faults = 0; write_faults = 0; last_unread = None } }
    {
        MemFiles {
            held,
            plan: FailPlan::new(fails),
            read_faults: 0,
            write_faults: 0,
            last_unread: None,
        }
    }
}

impl Files for MemFiles {
    ghost seen = { λ f. record { held = Some f.held; read_faults = f.read_faults; write_faults = f.write_faults; last_unread = f.last_unread } };

    /// The bytes held under the name, if they are at most `limit`. `Failed` comes exactly at the calls listed.
    fn read(&mut self, alloc: Global, name: &Text, limit: usize) -> Result<Vec<u8>, FileNo>
        ensures failed { IsErrOf result FileNo.Failed ↔ IsListed self.old.plan }
        ensures found { IfOk result (λ bytes. file_under name.now self.old.held ≡ Some bytes.items) }
        ensures within { IfOk result (λ bytes. vec_len bytes ≤ limit) }
        ensures absent { IsErrOf result FileNo.Absent → file_under name.now self.old.held ≡ None }
        ensures too_long { IsErrOf result FileNo.TooLong
            → ExceedsLimit (Some (file_under name.now self.old.held)) limit }
        ensures missing { file_under name.now self.old.held ≡ None
            → IsErrOf result FileNo.Absent ⊎ IsFree result }
        ensures fits { (bytes : List ℕ) → file_under name.now self.old.held ≡ Some bytes
            → length bytes ≤ limit → IsOk result ⊎ IsFree result }
        ensures exceeds { (bytes : List ℕ) → file_under name.now self.old.held ≡ Some bytes
            → limit < length bytes → IsErrOf result FileNo.TooLong ⊎ IsFree result }
        ensures faults { self.new.read_faults ≡ faults_after result self.old.read_faults }
        ensures later { self.old.read_faults ≤ self.new.read_faults }
        ensures unread { self.new.last_unread ≡ unread_after name.now result self.old.last_unread }
        ensures numbered { self.new.plan ≡ plan_after self.old.plan }
        ensures same { self.new.held ≡ self.old.held }
        ensures writes { self.new.write_faults ≡ self.old.write_faults }
    {
        if self.plan.next_fails() {
            self.read_faults = count_after_fault(self.read_faults);
            self.last_unread = Some(Snapshot::of(name));
            return Err(FileNo::Failed);
        }
        let Some(bytes) = bytes_under(name.items(), self.held.items()) else {
            return Err(FileNo::Absent);
        };
        if bytes.len() > limit {
            return Err(FileNo::TooLong);
        }
        Vec::from_slice(alloc, bytes).map_err(|_| FileNo::Memory)
    }

    /// Puts the bytes under the name, in the place of those that are there. `Failed` comes exactly at the calls listed,
    /// and after each refusal all is held as before.
    fn write(&mut self, alloc: Global, name: &Text, bytes: &[u8]) -> Result<(), WriteNo>
        ensures failed { IsErrOf result WriteNo.Failed ↔ IsListed self.old.plan }
        ensures written { OnOk result (file_under name.now self.new.held ≡ Some bytes.now) }
        ensures others { (other : List ℕ) → other ≢ name.now
            → file_under other self.new.held ≡ file_under other self.old.held }
        ensures stays { IsErr result → self.new.held ≡ self.old.held }
        ensures faults { self.new.write_faults ≡ faults_after_write result self.old.write_faults }
        ensures later { self.old.write_faults ≤ self.new.write_faults }
        ensures numbered { self.new.plan ≡ plan_after self.old.plan }
        ensures reads { self.new.read_faults ≡ self.old.read_faults }
        ensures unread { self.new.last_unread ≡ self.old.last_unread }
    {
        if self.plan.next_fails() {
            self.write_faults = count_after_fault(self.write_faults);
            return Err(WriteNo::Failed);
        }
        let Ok(item) = file_of(alloc, name, bytes) else {
            return Err(WriteNo::Memory);
        };
        put(&mut self.held, item)
    }
}

/// The file of that name with these bytes.
fn file_of(alloc: Global, name: &Text, bytes: &[u8]) -> Result<FileItem, AllocError>
    ensures { IfOk result (λ item. item ≡ record { name = name.now; bytes = bytes.now }) }
{
    Ok(FileItem {
        name: name.copy(alloc)?,
        bytes: Text::from_bytes(alloc, bytes)?,
    })
}

/// Puts the file in the place of the first with its name, and behind all others where there is none.
fn put(held: &mut FileList, item: FileItem) -> Result<(), WriteNo>
    ensures written { OnOk result (file_under item.name held.new ≡ Some item.bytes) }
    ensures others { (other : List ℕ) → other ≢ item.name → file_under other held.new ≡ file_under other held.old }
    ensures stays { IsErr result → held.new ≡ held.old }
    ensures memory { IfErr result (λ no. no ≡ WriteNo.Memory) }
{
    match index_of(&item.name, held) {
        Some(index) => {
            held.set(index, item);
            Ok(())
        }
        None => add(held, item),
    }
}

/// Puts the file behind all others.
fn add(held: &mut FileList, item: FileItem) -> Result<(), WriteNo>
    ensures added { OnOk result (held.new ≡ held.old ++ item ∷ []) }
    ensures stays { IsErr result → held.new ≡ held.old }
    ensures memory { IfErr result (λ no. no ≡ WriteNo.Memory) }
{
    held.push(item).map_err(|_| WriteNo::Memory)
}

/// The index of the first file with that name.
fn index_of(name: &Text, held: &FileList) -> Option<usize>
    ensures { result ≡ position (λ item. bytes_eq item.name name.now) held.now }
{
    let name = name.items();
    let mut items = held.items().iter();
    items.position(|item| item.name.items() == name)
}

/// The bytes of the first file with that name.
fn bytes_under<'a>(name: &[u8], held: &'a [FileItem]) -> Option<&'a [u8]>
    ensures { option_copied result ≡ file_under name.now held.now }
{
    held.iter()
        .find(|item| item.name.items() == name)
        .map(|item| item.bytes.items())
}
