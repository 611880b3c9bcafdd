ghost use Rattle.std.specs.Prelude.{◌≡◌, ◌<◌, ℕ, List, [], false, length, All, None, OnOk};
ghost use Rattle.std.specs.List.{Contains};
ghost use Rattle.std.specs.List.Sorted.{IsNonDecreasing};
ghost use Rattle.std.specs.Option.{option_copied};
ghost use Rattle.value_core.specs.Named.{Name as Naming, named, Rises};
ghost use Rattle.ref_store.specs.Places.{has_busy, room_in, versions_in, AreAdded, AreFew, AreWatched, IsAdded, IsReady, IsReserved};
ghost use Rattle.ref_store.specs.Store.{committed, versions_of, ArePruned, HasRoom, HasRoomFor, IsAbove, ReadsStayBelow, ReadsWrittenFrom};
ghost use Rattle.ref_store.specs.Version.{newest, value_at, IsHighest, IsReadAt};

use crate::live::Sorted;
use crate::pruning::prune;
use crate::versions::Versions;
use crate::{Live, Version, Writes};
use std::alloc::{AllocError, Global};
use std::collections::BTreeMap;
use std::marker::Model;
use value_core::name_map::{find, put};
use value_core::{Name, Value};

/// The versions of refs: the values that each ref has had, with the numbers of the commits that wrote them.
#[derive(Drop)]
pub struct Store {
    refs: BTreeMap<Name, Versions>,
    // The refs that a prune looks at: each that has room for a version or several versions, and perhaps some others.
    watched: Vec<Name>,
    // No ref has more versions than so many.
    most: usize,
}

impl Model for Store {
    ghost use Rattle.ref_store.specs.Places.{room_in, versions_in, AreKept};
    ghost use Rattle.ref_store.specs.Store.{kept_code, Kept};

    ghost Value = { Kept };

    ghost coded = { kept_code };

    ghost view = { λ s. record { versions = versions_in s.refs.entries; room = room_in s.refs.entries } };

    ghost invariant = { λ s. AreKept s.most s.watched.items s.refs.entries };
}

impl Store {
    /// No versions. It takes no memory.
    pub fn new(alloc: Global) -> Self
        ensures { result.versions ≡ [] }
    {
        Store {
            refs: BTreeMap::new(alloc),
            watched: Vec::new(alloc),
            most: 0,
        }
    }

    /// The value that the ref has at the number: that of its newest version at or below it. None where it has none. It
    /// takes no memory.
    pub fn read_at(&self, name: &Name, number: u64) -> Option<&Value>
        ensures value { option_copied result ≡ value_at number (versions_of self.now.versions name.now) }
        ensures newest { IsReadAt number (versions_of self.now.versions name.now) (option_copied result) }
    {
        match find(&self.refs, name) {
            Some(versions) => match versions.at(number) {
                Some(version) => Some(&version.value),
                None => None,
            },
            None => None,
        }
    }

    /// The newest version of the ref. None where it has none. It takes no memory.
    pub fn newest(&self, name: &Name) -> Option<&Version>
        ensures version { option_copied result ≡ newest (versions_of self.now.versions name.now) }
        ensures highest { IsHighest (versions_of self.now.versions name.now) (option_copied result) }
        ensures rises { Rises self.now.versions }
    {
        match find(&self.refs, name) {
            Some(versions) => versions.newest(),
            None => None,
        }
    }

    /// Makes room for one version more of each ref that is written, or finds no memory. The versions stay, and no ref has
    /// less room.
    pub fn reserve(&mut self, alloc: Global, writes: &Writes) -> Result<(), AllocError>
        ensures versions { self.new.versions ≡ self.old.versions }
        ensures room { OnOk result (HasRoomFor writes.now.items self.new.room) }
        ensures kept { (name : Naming) → HasRoom name self.old.room → HasRoom name self.new.room }
    {
        reserve(&mut self.refs, &mut self.watched, alloc, writes.items())
    }

    /// Adds a version to each ref that is written: the value, with this number. It takes no memory, and the other refs
    /// keep their room.
    pub fn commit(&mut self, writes: Writes, number: u64)
        requires room { HasRoomFor writes.items self.old.room }
        requires above { IsAbove number self.old.versions }
        ensures versions { self.new.versions ≡ committed self.old.versions writes.items number }
        ensures below { ReadsStayBelow number self.old.versions self.new.versions }
        ensures from { ReadsWrittenFrom writes.items number self.old.versions self.new.versions }
        ensures above { (later : ℕ) → number < later → IsAbove later self.new.versions }
        ensures kept { (name : Naming) → named name writes.items ≡ None → HasRoom name self.old.room → HasRoom name self.new.room }
    {
        self.most = commit(&mut self.refs, writes.into_items(), number, self.most);
    }

    /// Whether a ref may have more versions than one beside one for each of so many live numbers. Where none has, nothing is to be
    /// pruned. It takes no memory, and looks at no ref.
    pub fn is_due(&self, live: usize) -> bool
        ensures { result ≡ false → (numbers : List ℕ) → length numbers ≡ live → ArePruned numbers self.now.versions self.now.versions }
    {
        self.most.saturating_sub(1) > live
    }

    /// Drops versions that no live number reads, so that no ref keeps more than one beside those that live numbers can read.
    /// Where none has more, it may leave them all. It takes no memory, and no ref has less room.
    pub fn prune(&mut self, live: &[u64])
        requires { IsNonDecreasing live.now }
        ensures versions { ArePruned live.now self.old.versions self.new.versions }
        ensures above { (number : ℕ) → IsAbove number self.old.versions → IsAbove number self.new.versions }
        ensures kept { (name : Naming) → HasRoom name self.old.room → HasRoom name self.new.room }
    {
        self.prune_for(&Sorted { numbers: live });
    }

    /// The same, where it is only asked of the live numbers whether one lies in a range.
    pub fn prune_for<L: Live>(&mut self, live: &L)
        requires { L.holds live.now }
        ensures versions { ArePruned (L.numbers live.now) self.old.versions self.new.versions }
        ensures above { (number : ℕ) → IsAbove number self.old.versions → IsAbove number self.new.versions }
        ensures kept { (name : Naming) → HasRoom name self.old.room → HasRoom name self.new.room }
    {
        if !self.is_due(live.count()) {
            return;
        }
        self.most = prune(&mut self.refs, &mut self.watched, live);
    }
}

fn reserve(
    refs: &mut BTreeMap<Name, Versions>,
    watched: &mut Vec<Name>,
    alloc: Global,
    writes: &[(Name, Value)],
) -> Result<(), AllocError>
    ensures reserved { IsReserved refs.old.entries refs.new.entries }
    ensures room { OnOk result (HasRoomFor writes.now (room_in refs.new.entries)) }
    ensures watched { AreWatched watched.old.items refs.old.entries → AreWatched watched.new.items refs.new.entries }
{
    for write in writes {
        reserve_one(refs, watched, alloc, &write.0)?;
    }
    Ok(())
}

/// Makes room for one version more of the ref, which is looked at by the next prune.
fn reserve_one(
    refs: &mut BTreeMap<Name, Versions>,
    watched: &mut Vec<Name>,
    alloc: Global,
    name: &Name,
) -> Result<(), AllocError>
    ensures reserved { IsReserved refs.old.entries refs.new.entries }
    ensures room { OnOk result (HasRoom name.now (room_in refs.new.entries)) }
    ensures watched { AreWatched watched.old.items refs.old.entries → AreWatched watched.new.items refs.new.entries }
{
    watch(refs, watched, alloc, name)?;
    make_room(refs, alloc, name)
}

/// Puts the name into the list, if it is not there for certain.
fn watch(
    refs: &BTreeMap<Name, Versions>,
    watched: &mut Vec<Name>,
    alloc: Global,
    name: &Name,
) -> Result<(), AllocError>
    ensures kept { (other : Naming) → Contains watched.old.items other → Contains watched.new.items other }
    ensures there { AreWatched watched.old.items refs.now.entries → OnOk result (Contains watched.new.items name.now) }
{
    if is_busy(refs, name) {
        return Ok(());
    }
    Ok(watched.push(name.copy(alloc)?)?)
}

/// Whether the ref has room for a version or several versions.
fn is_busy(refs: &BTreeMap<Name, Versions>, name: &Name) -> bool
    ensures { result ≡ has_busy (named name.now refs.now.entries) }
{
    match find(refs, name) {
        Some(versions) => versions.is_busy(),
        None => false,
    }
}

/// Makes room for one version more of the ref.
fn make_room(
    refs: &mut BTreeMap<Name, Versions>,
    alloc: Global,
    name: &Name,
) -> Result<(), AllocError>
    ensures reserved { IsReserved refs.old.entries refs.new.entries }
    ensures room { OnOk result (HasRoom name.now (room_in refs.new.entries)) }
    ensures watched { (names : List Naming) → Contains names name.now → AreWatched names refs.old.entries → AreWatched names refs.new.entries }
{
    match refs.get_mut(name) {
        Some(versions) => versions.reserve_one(),
        None => {
            let mut versions = Versions::new(alloc);
            versions.reserve_one()?;
            put(refs, name.copy(alloc)?, versions)
        }
    }
}

/// Adds the versions of the writes, and says how many versions a ref has at most, of which none had more than so many.
fn commit(
    refs: &mut BTreeMap<Name, Versions>,
    mut writes: Vec<(Name, Value)>,
    number: u64,
    mut most: usize,
) -> usize
    requires rises { Rises refs.old.entries }
    requires order { Rises writes.items }
    requires ready { All (λ write. IsReady number refs.old.entries write.0) writes.items }
    ensures added { AreAdded writes.items number refs.old.entries refs.new.entries }
    ensures few { AreFew most (versions_in refs.old.entries) → AreFew result (versions_in refs.new.entries) }
{
    while let Some(write) = writes.pop() {
        let (name, value) = write;
        most = most.max(add(refs, &name, Version { number, value }));
    }
    most
}

/// Adds the version as the newest of the ref, and says how many it has then.
fn add(refs: &mut BTreeMap<Name, Versions>, name: &Name, version: Version) -> usize
    requires rises { Rises refs.old.entries }
    requires ready { IsReady version.number refs.old.entries name.now }
    ensures added { IsAdded name.now version refs.old.entries refs.new.entries }
    ensures count { length (versions_of (versions_in refs.new.entries) name.now) ≡ result }
{
    match refs.get_mut(name) {
        Some(versions) => {
            versions.push(version);
            versions.count()
        }
        None => unreachable!(),
    }
}
