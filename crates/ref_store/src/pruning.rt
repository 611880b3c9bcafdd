ghost use Rattle.std.specs.Prelude.{◌≡◌, ◌<◌, IfSome, IsNone, false, length};
ghost use Rattle.value_core.specs.Named.{named, Rises};
ghost use Rattle.ref_store.specs.Places.{count_of, has_busy, ArePrunedPlaces, AreKept, AreWatched, IsPrunedUnder, PrunesAt};

use crate::Live;
use crate::versions::Versions;
use std::collections::BTreeMap;
use value_core::Name;

/// Prunes the refs, and says how many versions any has at most. It looks at those in the list, of which it leaves the ones
/// that have room or several versions.
pub(crate) fn prune<L: Live>(
    refs: &mut BTreeMap<Name, Versions>,
    watched: &mut Vec<Name>,
    live: &L,
) -> usize
    requires holds { L.holds live.now }
    requires names { Rises refs.old.entries }
    requires watched { AreWatched watched.old.items refs.old.entries }
    ensures pruned { ArePrunedPlaces (L.numbers live.now) refs.old.entries refs.new.entries }
    ensures kept { AreKept result watched.new.items refs.new.entries }
{
    let mut most = 1;
    // From the last name on, so that the name that comes into the place of one taken out has been looked at.
    let mut index = watched.len();
    while index > 0 {
        index -= 1;
        most = prune_at(refs, watched, index, live, most);
    }
    most
}

/// Prunes the ref at the index, and takes it from the list where it has no room and one version at most. The number of its
/// versions is answered where that is higher.
fn prune_at<L: Live>(
    refs: &mut BTreeMap<Name, Versions>,
    watched: &mut Vec<Name>,
    index: usize,
    live: &L,
    most: usize,
) -> usize
    requires at { index < length watched.old.items }
    requires holds { L.holds live.now }
    requires names { Rises refs.old.entries }
    ensures { PrunesAt (L.numbers live.now) index watched.old.items most refs.old.entries watched.new.items result refs.new.entries }
{
    match prune_one(refs, &watched[index], live) {
        Some(count) => most.max(count),
        None => {
            watched.swap_remove(index);
            most
        }
    }
}

/// Prunes the ref, and says how many versions it has where it has room or several.
fn prune_one<L: Live>(refs: &mut BTreeMap<Name, Versions>, name: &Name, live: &L) -> Option<usize>
    requires holds { L.holds live.now }
    requires names { Rises refs.old.entries }
    ensures pruned { IsPrunedUnder (L.numbers live.now) name.now refs.old.entries refs.new.entries }
    ensures idle { IsNone result → has_busy (named name.now refs.new.entries) ≡ false }
    ensures count { IfSome result (λ count. count_of (named name.now refs.new.entries) ≡ count) }
{
    match refs.get_mut(name) {
        Some(versions) => {
            versions.prune(live);
            versions.count_if_busy()
        }
        None => None,
    }
}
