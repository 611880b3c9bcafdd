// The attempts that are live, and their snapshots.
ghost use Rattle.std.specs.Prelude.{◌≡◌, ◌<◌, ◌≤◌, ◌&&◌, ◌++◌, ◌∷◌, [], IfOk, IfSome, length, nat_le, nat_lt, ⊤};
ghost use Rattle.std.specs.List.Sorted.{IsNonDecreasing};
ghost use Rattle.std.specs.Option.{option_map};
ghost use Rattle.std.specs.Vec.{vec_capacity};
ghost use Rattle.ref_store.specs.Pruned.{has_between};
ghost use Rattle.attempts_gone.specs.Live.{snapshots_in};
ghost use Rattle.shared_world.specs.rows.Attempts.{AreLive, IsWithout};
ghost use Rattle.value_core.specs.Named.{named};

use ref_store::Live;
use std::alloc::{AllocError, Global};
use std::collections::BTreeMap;
use task_fork_join::Tree;
use value_core::Name;

/// Room for as many snapshots as there are attempts.
pub fn room_for_snapshots(
    alloc: Global,
    attempts: &BTreeMap<Name, Tree>,
) -> Result<Vec<u64>, AllocError>
    ensures empty { IfOk result (λ live. live.items ≡ []) }
    ensures room { IfOk result (λ live. length attempts.now.entries ≤ vec_capacity live) }
{
    Vec::with_capacity(alloc, attempts.len())
}

/// The attempt of the unit, which is gone then. It takes no memory.
pub(crate) fn take_attempt(attempts: &mut BTreeMap<Name, Tree>, name: &Name) -> Option<Tree>
    ensures tree { result ≡ named name.now attempts.old.entries }
    ensures gone { IsWithout name.now attempts.old.entries attempts.new.entries }
    ensures fewer { length attempts.new.entries ≤ length attempts.old.entries }
{
    attempts.remove(name)
}

/// The attempt of the unit, which is gone then, with the name of the unit. It takes no memory.
pub fn take_named(attempts: &mut BTreeMap<Name, Tree>, name: &Name) -> Option<(Name, Tree)>
    ensures name { IfSome result (λ entry. entry.0 ≡ name.now) }
    ensures tree { option_map (λ entry. entry.1) result ≡ named name.now attempts.old.entries }
    ensures gone { IsWithout name.now attempts.old.entries attempts.new.entries }
    ensures fewer { length attempts.new.entries ≤ length attempts.old.entries }
{
    attempts.remove_entry(name)
}

/// The snapshots of the attempts, which are looked at each time that one is asked for.
#[derive(Drop)]
pub(crate) struct Snapshots<'a> {
    pub(crate) attempts: &'a BTreeMap<Name, Tree>,
}

impl Live for Snapshots<'_> {
    ghost numbers = { λ s. snapshots_in s.attempts.now.entries };

    ghost holds = { λ _. ⊤ };

    fn count(&self) -> usize {
        count_snapshots(self.attempts)
    }

    fn any_between(&self, from: u64, to: u64) -> bool {
        any_between(self.attempts, from, to)
    }
}

/// How many snapshots there are.
fn count_snapshots(attempts: &BTreeMap<Name, Tree>) -> usize
    ensures { result ≡ length (snapshots_in attempts.now.entries) }
{
    attempts.len()
}

/// Whether one of the snapshots is at or above the first bound and below the second.
fn any_between(attempts: &BTreeMap<Name, Tree>, from: u64, to: u64) -> bool
    ensures { result ≡ has_between from to (snapshots_in attempts.now.entries) }
{
    for (_name, tree) in attempts {
        if is_between(tree.snapshot(), from, to) {
            return true;
        }
    }
    false
}

/// Whether the number is at or above the first bound and below the second.
fn is_between(number: u64, from: u64, to: u64) -> bool
    ensures { result ≡ (nat_le from number && nat_lt number to) }
{
    from <= number && number < to
}

/// The snapshots of the attempts, in order. There is room for them.
#[tactic(auto, using(crate::proofs::Live::sorted_live))]
pub(crate) fn fill_snapshots(attempts: &BTreeMap<Name, Tree>, live: &mut Vec<u64>)
    requires empty { live.old.items ≡ [] }
    requires room { length attempts.now.entries ≤ vec_capacity live.old }
    ensures live { AreLive live.new.items attempts.now.entries }
    ensures order { IsNonDecreasing live.new.items }
{
    push_snapshots(attempts, live);
    live.sort_unstable();
}

/// The snapshots of the attempts. There is room for them.
fn push_snapshots(attempts: &BTreeMap<Name, Tree>, live: &mut Vec<u64>)
    requires empty { live.old.items ≡ [] }
    requires room { length attempts.now.entries ≤ vec_capacity live.old }
    ensures { live.new.items ≡ snapshots_in attempts.now.entries }
{
    for (_name, tree) in attempts {
        push_one(live, tree.snapshot());
    }
}

/// The snapshot behind the others. There is room for it.
fn push_one(live: &mut Vec<u64>, snapshot: u64)
    requires room { length live.old.items < vec_capacity live.old }
    ensures pushed { live.new.items ≡ live.old.items ++ snapshot ∷ [] }
    ensures room { vec_capacity live.old ≤ vec_capacity live.new }
{
    match live.push(snapshot) {
        Ok(()) => {}
        Err(_) => {}
    }
}
