ghost use Rattle.std.specs.Prelude.{◌≡◌, ◌≢◌, ℕ, ◌≤◌, ◌<◌, [], length, None, Some, slice_set, IfSome, IfNone, OnOk, OnErr, false, true};
ghost use Rattle.wait_lists.specs.WaitLists.{need_of};

use crate::links::{Links, grow, link_at, put_first, unlink};
use std::alloc::{AllocError, Global};
use std::marker::Model;

/// For each slot the one that it waits for, if it waits. Only [`WaitLists::reserve`] takes memory, and every other call
/// touches a few links.
#[derive(Drop)]
pub struct WaitLists {
    // For what each slot waits.
    waits: Links,
    // The first slot that waits for each.
    first: Links,
    // Of a slot that waits, the next that waits for the same, and the one before it.
    next: Links,
    before: Links,
}

impl Model for WaitLists {
    ghost use Rattle.std.specs.Prelude.{ℕ, List, Option};
    ghost use Rattle.std.specs.Coded.{coded_list, coded_option, coded_ℕ};
    ghost use Rattle.wait_lists.specs.Links.{AreLinked};

    ghost Value = { List (Option ℕ) };

    ghost coded = { coded_list (coded_option coded_ℕ) };

    ghost view = { λ w. w.waits.items };

    ghost invariant = { λ w. AreLinked w.waits.items w.first.items w.next.items w.before.items };
}

impl WaitLists {
    /// No slot waits, and there is room for none. It takes no memory.
    pub fn new(alloc: Global) -> Self
        ensures { result ≡ [] }
    {
        WaitLists {
            waits: Vec::new(alloc),
            first: Vec::new(alloc),
            next: Vec::new(alloc),
            before: Vec::new(alloc),
        }
    }

    /// Makes room for the slots below `slots`, or finds no memory. What waits stays, and no room is lost.
    pub fn reserve(&mut self, slots: usize) -> Result<(), AllocError>
        ensures room { OnOk result (slots ≤ length self.new) }
        ensures waits { (slot : ℕ) → need_of self.new slot ≡ need_of self.old slot }
        ensures kept { length self.old ≤ length self.new }
        ensures same { OnErr result (self.new ≡ self.old) }
    {
        grow(&mut self.first, slots)?;
        grow(&mut self.next, slots)?;
        grow(&mut self.before, slots)?;
        grow(&mut self.waits, slots)
    }

    /// What the slot waits for. None where it doesn't wait.
    pub fn need_of(&self, slot: usize) -> Option<usize>
        ensures { result ≡ need_of self.now slot }
    {
        link_at(&self.waits, slot)
    }

    /// Whether some slot waits for the need. It takes no memory.
    pub fn is_awaited(&self, need: usize) -> bool
        ensures some { result ≡ true → (slot : ℕ) × (need_of self.now slot ≡ Some need) }
        ensures none { result ≡ false → (slot : ℕ) → need_of self.now slot ≢ Some need }
    {
        link_at(&self.first, need).is_some()
    }

    /// The slot waits for the need from now on. It takes no memory.
    pub fn wait(&mut self, slot: usize, need: usize)
        requires slot { slot < length self.old }
        requires need { need < length self.old }
        requires idle { need_of self.old slot ≡ None }
        ensures { self.new ≡ slice_set self.old slot (Some need) }
    {
        put_first(
            &mut self.first,
            &mut self.next,
            &mut self.before,
            slot,
            need,
        );
        self.waits[slot] = Some(need);
    }

    /// The slot waits no more, if it did. It takes no memory.
    pub fn stop(&mut self, slot: usize)
        requires { slot < length self.old }
        ensures { self.new ≡ slice_set self.old slot None }
    {
        if let Some(need) = self.waits[slot] {
            unlink(
                &mut self.first,
                &mut self.next,
                &mut self.before,
                slot,
                need,
            );
            self.waits[slot] = None;
        }
    }

    /// One slot that waits for the need, which waits no more. None where there is none. It takes no memory.
    pub fn wake(&mut self, need: usize) -> Option<usize>
        requires { need < length self.old }
        ensures was { IfSome result (λ slot. need_of self.old slot ≡ Some need) }
        ensures taken { IfSome result (λ slot. self.new ≡ slice_set self.old slot None) }
        ensures none { IfNone result ((slot : ℕ) → need_of self.old slot ≢ Some need) }
        ensures stays { IfNone result (self.new ≡ self.old) }
    {
        match self.first[need] {
            Some(slot) => {
                self.stop(slot);
                Some(slot)
            }
            None => None,
        }
    }
}
