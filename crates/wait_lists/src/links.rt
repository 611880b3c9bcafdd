ghost use Rattle.std.specs.Prelude.{◌≡◌, ◌≢◌, ℕ, ◌<◌, ◌≤◌, length, max, IfSome, None, OnErr, OnOk};
ghost use Rattle.wait_lists.specs.Links.{link, IsPutFirst, IsUnlinked};

use std::alloc::AllocError;

/// A link from each slot to another one, or to none.
pub(crate) type Links = Vec<Option<usize>>;

/// Makes it so many links at least, the new ones None, or finds no memory.
pub(crate) fn grow(links: &mut Links, count: usize) -> Result<(), AllocError>
    ensures same { (slot : ℕ) → link links.new.items slot ≡ link links.old.items slot }
    ensures ok { OnOk result (count ≤ length links.new.items) }
    ensures kept { length links.old.items ≤ length links.new.items }
    ensures at_most { length links.new.items ≤ max (length links.old.items) count }
    ensures err { OnErr result (links.new.items ≡ links.old.items) }
{
    if count <= links.len() {
        return Ok(());
    }
    links.resize(count, None)
}

/// The link at the slot. None past the end.
pub(crate) fn link_at(links: &Links, slot: usize) -> Option<usize>
    ensures { result ≡ link links.now.items slot }
{
    match links.get(slot) {
        Some(link) => *link,
        None => None,
    }
}

/// Puts the slot before those that wait for the need.
pub(crate) fn put_first(
    first: &mut Links,
    next: &mut Links,
    before: &mut Links,
    slot: usize,
    need: usize,
)
    requires need { need < length first.old.items }
    requires next { slot < length next.old.items }
    requires before { slot < length before.old.items }
    requires head { IfSome (link first.old.items need) (λ head. head < length before.old.items) }
    ensures { IsPutFirst slot need first.old.items next.old.items before.old.items first.new.items next.new.items before.new.items }
{
    let head = first[need];
    if let Some(other) = head {
        before[other] = Some(slot);
    }
    before[slot] = None;
    next[slot] = head;
    first[need] = Some(slot);
}

/// Takes the slot out of the list of those that wait for the need.
pub(crate) fn unlink(
    first: &mut Links,
    next: &mut Links,
    before: &mut Links,
    slot: usize,
    need: usize,
)
    requires need { need < length first.old.items }
    requires next { slot < length next.old.items }
    requires before { slot < length before.old.items }
    requires other_before { IfSome (link before.old.items slot) (λ other. other < length next.old.items) }
    requires other_next { IfSome (link next.old.items slot) (λ other. other < length before.old.items) }
    ensures { IsUnlinked slot need first.old.items next.old.items before.old.items first.new.items next.new.items before.new.items }
{
    let after = next[slot];
    let last = before[slot];
    match last {
        Some(other) => next[other] = after,
        None => first[need] = after,
    }
    if let Some(other) = after {
        before[other] = last;
    }
}
