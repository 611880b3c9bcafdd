ghost use Rattle.std.specs.Prelude.{◌≡◌, ℕ, ◌≤◌, ◌<◌, [], length, true, false, slice_set, IfSome, IfNone, OnOk, OnErr};
ghost use Rattle.slot_set.specs.SlotSet.{has_slot, IsLeast};

use crate::words::{clear_bit, first_bit, first_word, grow, has_bit, set_bit};
use std::alloc::{AllocError, Global};
use std::marker::Model;

/// A set of slots: three levels of words, in which a bit of a level says whether a word of the level below is not zero. So
/// its least member is found by few words, and only [`SlotSet::reserve`] takes memory.
#[derive(Drop)]
pub struct SlotSet {
    // A bit for each slot.
    low: Vec<u64>,
    mid: Vec<u64>,
    top: Vec<u64>,
}

impl Model for SlotSet {
    ghost use Rattle.std.specs.Prelude.{List, Bool};
    ghost use Rattle.std.specs.Coded.{coded_list, coded_bool};
    ghost use Rattle.slot_set.specs.Words.{members, AreLevels};

    ghost Value = { List Bool };

    ghost coded = { coded_list coded_bool };

    ghost view = { λ s. members s.low.items };

    ghost invariant = { λ s. AreLevels s.low.items s.mid.items s.top.items };
}

impl SlotSet {
    /// The empty set, with room for no slot. It takes no memory.
    pub fn new(alloc: Global) -> Self
        ensures { result ≡ [] }
    {
        SlotSet {
            low: Vec::new(alloc),
            mid: Vec::new(alloc),
            top: Vec::new(alloc),
        }
    }

    /// Makes room for the slots below `slots`, or finds no memory. The members stay, and no room is lost.
    pub fn reserve(&mut self, slots: usize) -> Result<(), AllocError>
        ensures room { OnOk result (slots ≤ length self.new) }
        ensures members { (slot : ℕ) → has_slot self.new slot ≡ has_slot self.old slot }
        ensures kept { length self.old ≤ length self.new }
        ensures same { OnErr result (self.new ≡ self.old) }
    {
        let low = slots / 64 + 1;
        let mid = low / 64 + 1;
        let top = mid / 64 + 1;
        grow(&mut self.top, top)?;
        grow(&mut self.mid, mid)?;
        grow(&mut self.low, low)
    }

    /// Adds the slot, if it is no member yet. It takes no memory, and touches a word of each level.
    pub fn insert(&mut self, slot: usize)
        requires { slot < length self.old }
        ensures { self.new ≡ slice_set self.old slot true }
    {
        let mid = slot / 64;
        set_bit(&mut self.low, slot);
        set_bit(&mut self.mid, mid);
        set_bit(&mut self.top, mid / 64);
    }

    /// Takes the slot out, if it is a member. It takes no memory, and touches at most a word of each level.
    pub fn remove(&mut self, slot: usize)
        requires { slot < length self.old }
        ensures { self.new ≡ slice_set self.old slot false }
    {
        let mid = slot / 64;
        if clear_bit(&mut self.low, slot) {
            if clear_bit(&mut self.mid, mid) {
                clear_bit(&mut self.top, mid / 64);
            }
        }
    }

    /// Whether the slot is a member.
    pub fn contains(&self, slot: usize) -> bool
        ensures { result ≡ has_slot self.now slot }
    {
        has_bit(self.low.as_slice(), slot)
    }

    /// The least member. None where there is none. It looks at the words of the top level, of which there is one for
    /// 262,144 slots, and at one word of each level below.
    pub fn first(&self) -> Option<usize>
        ensures some { IfSome result (λ slot. IsLeast self.now slot) }
        ensures none { IfNone result ((slot : ℕ) → has_slot self.now slot ≡ false) }
    {
        match first_word(self.top.as_slice()) {
            Some(word) => {
                let mid = first_bit(self.top.as_slice(), word);
                let low = first_bit(self.mid.as_slice(), mid);
                Some(first_bit(self.low.as_slice(), low))
            }
            None => None,
        }
    }
}
