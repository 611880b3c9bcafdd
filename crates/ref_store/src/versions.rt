ghost use Rattle.std.specs.Prelude.{◌≡◌, ◌+◌, ◌<◌, ◌≤◌, ◌++◌, ◌∷◌, [], drop, length, false, take, All, IfSome, IsNone, OnOk, vec_capacity};
ghost use Rattle.std.specs.Option.{option_copied};
ghost use Rattle.ref_store.specs.Places.{is_busy};
ghost use Rattle.ref_store.specs.Pruned.{first_staying, staying, IsPruned};
ghost use Rattle.ref_store.specs.Version.{newest, version_at, NumbersRise};

use crate::{Live, Version};
use std::alloc::{AllocError, Global};
use std::marker::Model;

/// The versions of a ref, the oldest first, and whether room for one more has been made since the last one came.
#[derive(Drop)]
pub(crate) struct Versions {
    all: Vec<Version>,
    is_reserved: bool,
}

impl Model for Versions {
    ghost use Rattle.std.specs.Prelude.{◌-◌, if◌then◌else◌};
    ghost use Rattle.std.specs.Vec.{vec_capacity, vec_len};
    ghost use Rattle.value_core.specs.Roomy.{Roomy};
    ghost use Rattle.ref_store.specs.declared.version.Version.{Version};
    ghost use Rattle.ref_store.specs.Version.{versions_code, NumbersRise};

    ghost Value = { Roomy Version };

    ghost coded = { versions_code };

    ghost view = { λ v. record { items = v.all.items; room = if v.is_reserved then vec_capacity v.all - vec_len v.all else 0 } };

    ghost invariant = { λ v. NumbersRise v.all.items };
}

impl Versions {
    /// No versions. It takes no memory.
    pub(crate) fn new(alloc: Global) -> Self
        ensures { result.items ≡ [] }
    {
        Versions {
            all: Vec::new(alloc),
            is_reserved: false,
        }
    }

    /// The newest version at or below the number.
    pub(crate) fn at(&self, number: u64) -> Option<&Version>
        ensures version { option_copied result ≡ version_at number self.now.items }
        ensures rises { NumbersRise self.now.items }
    {
        let count = self.all.partition_point(|version| version.number <= number);
        if count == 0 {
            return None;
        }
        Some(&self.all[count - 1])
    }

    /// The newest version.
    pub(crate) fn newest(&self) -> Option<&Version>
        ensures version { option_copied result ≡ newest self.now.items }
        ensures rises { NumbersRise self.now.items }
    {
        self.all.last()
    }

    /// Makes room for one version more, or finds no memory. The versions stay, and the room does not shrink.
    pub(crate) fn reserve_one(&mut self) -> Result<(), AllocError>
        ensures items { self.new.items ≡ self.old.items }
        ensures room { OnOk result (0 < self.new.room) }
        ensures kept { self.old.room ≤ self.new.room }
    {
        self.all.reserve(1)?;
        self.is_reserved = true;
        Ok(())
    }

    /// How many versions more there is room for.
    fn room(&self) -> usize
        ensures { result ≡ self.now.room }
    {
        if self.is_reserved {
            self.all.capacity() - self.all.len()
        } else {
            0
        }
    }

    /// Whether there is room for a version more, or a version beside the newest. It takes no memory.
    pub(crate) fn is_busy(&self) -> bool
        ensures { result ≡ is_busy self.now }
    {
        self.room() > 0 || self.all.len() > 1
    }

    /// How many versions there are. It takes no memory.
    pub(crate) fn count(&self) -> usize
        ensures { length self.now.items ≡ result }
    {
        self.all.len()
    }

    /// How many versions there are, where there is room for one more or a version beside the newest. It takes no memory.
    pub(crate) fn count_if_busy(&self) -> Option<usize>
        ensures idle { IsNone result → is_busy self.now ≡ false }
        ensures count { IfSome result (λ count. length self.now.items ≡ count) }
    {
        if self.is_busy() {
            Some(self.all.len())
        } else {
            None
        }
    }

    /// Adds a version that is newer than all, and uses up the room that was made. It takes no memory.
    pub(crate) fn push(&mut self, version: Version)
        requires room { 0 < self.old.room }
        requires newer { All (λ old. old.number < version.number) self.old.items }
        ensures { self.new.items ≡ self.old.items ++ version ∷ [] }
    {
        self.all.push_reserved(version);
        self.is_reserved = false;
    }

    /// Drops the versions that no live number reads, but for the newest. It takes no memory, and the room does not shrink.
    pub(crate) fn prune<L: Live>(&mut self, live: &L)
        requires { L.holds live.now }
        ensures pruned { IsPruned (L.numbers live.now) self.old.items self.new.items }
        ensures room { self.old.room ≤ self.new.room }
    {
        prune(&mut self.all, live);
    }
}

fn prune<L: Live>(versions: &mut Vec<Version>, live: &L)
    requires { L.holds live.now }
    ensures items { versions.new.items ≡ staying (L.numbers live.now) versions.old.items }
    ensures capacity { vec_capacity versions.new ≡ vec_capacity versions.old }
{
    // From the newest on, so that few versions move where one is dropped.
    let mut index = versions.len();
    while index > 0 {
        index -= 1;
        drop_unread(versions, index, live);
    }
}

/// Drops the version at the index where no live number reads it, and it is not the last.
fn drop_unread<L: Live>(versions: &mut Vec<Version>, index: usize, live: &L)
    requires at { index < length versions.old.items }
    requires holds { L.holds live.now }
    ensures items { versions.new.items ≡ take index versions.old.items ++ first_staying (L.numbers live.now) (drop index versions.old.items) }
    ensures capacity { vec_capacity versions.new ≡ vec_capacity versions.old }
{
    let next = index + 1;
    if next < versions.len() && !live.any_between(versions[index].number, versions[next].number) {
        versions.remove(index);
    }
}
