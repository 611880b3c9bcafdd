ghost use Rattle.std.specs.Prelude.{◌≡◌, ◌<◌, ◌≤◌, All, IfErr, IfNone, IfSome, OnOk};
ghost use Rattle.txn_commit.specs.Conflict.{IsChanged, IsFirstConflict, IsUnchanged, ReadsAsThen};

use crate::Conflict;
use ref_store::{Store, Version};
use txn_snapshot::Reads;
use value_core::Name;

/// Whether each ref that was read has no version above the snapshot, so that it still reads as it did there. The first of
/// the others is the conflict. It takes no memory.
pub fn validate(reads: &Reads, store: &Store, snapshot: u64) -> Result<(), Conflict>
    ensures unchanged { OnOk result (All (IsUnchanged store.now.versions snapshot) reads.now.items) }
    ensures reads_as_then { OnOk result (All (ReadsAsThen store.now.versions snapshot) reads.now.items) }
    ensures conflict { IfErr result (IsFirstConflict reads.now.items store.now.versions snapshot) }
{
    validate_each(reads.items(), store, snapshot)
}

/// The same of these refs.
fn validate_each(reads: &[Name], store: &Store, snapshot: u64) -> Result<(), Conflict>
    ensures unchanged { OnOk result (All (IsUnchanged store.now.versions snapshot) reads.now) }
    ensures reads_as_then { OnOk result (All (ReadsAsThen store.now.versions snapshot) reads.now) }
    ensures conflict { IfErr result (IsFirstConflict reads.now store.now.versions snapshot) }
{
    for (index, read) in reads.iter().enumerate() {
        if let Some(version) = version_above(store, read, snapshot) {
            return Err(Conflict { index, version });
        }
    }
    Ok(())
}

/// The number of the newest version of the ref, where it is above the snapshot.
fn version_above(store: &Store, name: &Name, snapshot: u64) -> Option<u64>
    ensures changed { IfSome result (IsChanged store.now.versions snapshot name.now) }
    ensures unchanged { IfNone result (IsUnchanged store.now.versions snapshot name.now) }
{
    match store.newest(name) {
        Some(version) => number_above(version, snapshot),
        None => None,
    }
}

/// The number of the version, where it is above the snapshot.
fn number_above(version: &Version, snapshot: u64) -> Option<u64>
    ensures above { IfSome result (λ number. (version.now.number ≡ number) × (snapshot < number)) }
    ensures none { IfNone result (version.now.number ≤ snapshot) }
{
    if version.number > snapshot {
        Some(version.number)
    } else {
        None
    }
}
