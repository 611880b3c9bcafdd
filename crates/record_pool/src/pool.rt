ghost use Rattle.std.specs.Prelude.{◌≡◌, ◌^◌, ◌+◌, ◌-◌, ◌<◌, ◌≤◌, [], None, Some, IsOk, OnOk, OnErr, IfNone, IfSome, OnSome, IsSome, length, max, IsTrue, ◌↔◌, option_copied};
ghost use Rattle.std.specs.Option.{option_copied_mut};
ghost use Rattle.std.specs.Borrow.{sem};
ghost use Rattle.record_pool.specs.Pool.{find, place_at, next_of, Puts, Gives, after_removal, with_record};

use crate::slot::{Slot, State};
use std::alloc::{AllocError, Global};
use std::marker::Model;
use std::mem;
use value_core::Ticket;

/// Records under tickets, none of which is given out twice. The free slots are a list that runs through the slots
/// themselves. Contracts see a finite map from tickets to records (`find`), the spare room, and for each slot how far its
/// generations were given out (`next_of`).
#[derive(Drop)]
pub struct Pool<T> {
    slots: Vec<Slot<T>>,
    // The first free slot.
    head: Option<usize>,
    // How many slots are free.
    free: usize,
    // The generation that a new slot begins with.
    first: u32,
}

impl<T> Model for Pool<T> {
    ghost use Rattle.std.specs.Prelude.{◌+◌, ◌-◌, map};
    ghost use Rattle.std.specs.Vec.{vec_len, vec_capacity};
    ghost use Rattle.record_pool.specs.Pool.{Pool as Records, pool_code};
    ghost use Rattle.record_pool.specs.Slots.{place_of, IsSound};

    ghost Value = { Records T };

    ghost coded = { pool_code T.code };

    ghost view = { λ a. record {
      places = map place_of a.slots.items;
      room = a.free + (vec_capacity a.slots - vec_len a.slots);
      first = a.first;
    } };

    ghost invariant = { λ a. IsSound a.slots.items a.head a.free };
}

impl<T> Pool<T> {
    ghost use Rattle.record_pool.specs.Lends.{lends_find, lends_value};

    /// The empty pool, whose generations begin with 0. It takes no memory.
    pub fn new(alloc: Global) -> Self
        ensures places { result.places ≡ [] }
        ensures first { result.first ≡ 0 }
    {
        Pool::starting_at(alloc, 0)
    }

    /// The empty pool, whose generations begin with this one. It takes no memory.
    pub fn starting_at(alloc: Global, first: u32) -> Self
        ensures places { result.places ≡ [] }
        ensures first { result.first ≡ first }
    {
        Pool {
            slots: Vec::new(alloc),
            head: None,
            free: 0,
            first,
        }
    }

    /// Makes room for `more` further records, or finds no memory. The records stay.
    pub fn reserve(&mut self, more: usize) -> Result<(), AllocError>
        ensures room { OnOk result (more ≤ self.new.room) }
        ensures kept { self.old.room ≤ self.new.room }
        ensures rest { self.new ≡ record self.old { room = self.new.room } }
        ensures succeeds { more ≤ self.old.room → IsOk result × (self.new ≡ self.old) }
    {
        if more <= self.free + (self.slots.capacity() - self.slots.len()) {
            return Ok(());
        }
        self.slots.reserve(more - self.free)
    }

    /// Puts the record into a free slot and gives its ticket out. It takes no memory.
    pub fn insert(&mut self, value: T) -> Ticket
        requires { 0 < self.old.room }
        ensures gives { Gives self.old self.new result value }
        ensures room { self.new.room + 1 ≡ self.old.room }
        ensures near { result.slot ≤ length self.old.places }
        ensures made { length self.new.places ≤ max (length self.old.places) (result.slot + 1) }
    {
        match self.head {
            None => {
                let slot = self.slots.len();
                let generation = self.first;
                self.slots.push_reserved(Slot {
                    generation,
                    state: State::Live(value),
                });
                Ticket { slot, generation }
            }
            Some(slot) => {
                let generation = self.slots[slot].generation;
                let live = Slot {
                    generation,
                    state: State::Live(value),
                };
                let Slot {
                    generation: _,
                    state,
                } = mem::replace(&mut self.slots[slot], live);
                match state {
                    State::Free(next) => {
                        self.head = next;
                        self.free -= 1;
                    }
                    State::Live(_) => unreachable!(),
                    State::Retired => unreachable!(),
                }
                Ticket { slot, generation }
            }
        }
    }

    /// How many slots were made.
    pub fn slots(&self) -> usize
        ensures value { result ≡ length self.now.places }
        ensures small { result < 2 ^ 63 }
    {
        self.slots.len()
    }

    /// The ticket that is live in the slot, if there is one.
    pub fn ticket_at(&self, slot: usize) -> Option<Ticket>
        ensures some { IfSome result (λ ticket. (ticket.slot ≡ slot) × (next_of self.now slot ≡ ticket.generation + 1) × IsSome (place_at self.now slot).0) }
        ensures none { IfNone result ((place_at self.now slot).0 ≡ None) }
    {
        let generation = self.slots.get(slot)?.live()?;
        Some(Ticket { slot, generation })
    }

    /// The record of the ticket, if it is live.
    pub fn get(&self, ticket: Ticket) -> Option<&T>
        ensures { option_copied result ≡ find self.now ticket }
    {
        match self.slots.get(ticket.slot) {
            Some(slot) => slot.get(ticket.generation),
            None => None,
        }
    }

    /// Puts the record in the place of the ticket's, which comes back. It takes no memory.
    pub fn put(&mut self, ticket: Ticket, value: T) -> T
        requires { IsSome (find self.old ticket) }
        ensures value { find self.old ticket ≡ Some result }
        ensures put { self.new ≡ with_record self.old ticket value }
    {
        mem::replace(self.value_mut(ticket), value)
    }

    /// The record of the ticket for writing, if it is live.
    pub fn get_mut(&mut self, ticket: Ticket) -> Option<&mut T>
        ensures* writes_back { sem 𝓛 (lends_find T.row self.entry ticket result) }
        ensures value { option_copied_mut result ≡ find self.old ticket }
    {
        if self.get(ticket).is_some() {
            Some(self.value_mut(ticket))
        } else {
            None
        }
    }

    // The record of a live ticket, for writing.
    fn value_mut(&mut self, ticket: Ticket) -> &mut T
        requires { IsSome (find self.old ticket) }
        ensures* writes_back { sem 𝓛 (lends_value T.row self.entry ticket result) }
        ensures value { find self.old ticket ≡ Some result.now }
    {
        self.slots[ticket.slot].value_mut()
    }

    /// Takes the record of the ticket out, if it is live. It takes no memory. The slot is free then, unless the ticket's
    /// generation is the last value of a u32: such a slot is retired, and not used again.
    pub fn remove(&mut self, ticket: Ticket) -> Option<T>
        ensures value { result ≡ find self.old ticket }
        ensures absent { IfNone result (self.new ≡ self.old) }
        ensures taken { OnSome result (Puts self.old self.new ticket.slot (None, ticket.generation + 1)) }
        ensures room { OnSome result (self.new.room ≡ self.old.room + after_removal ticket) }
        ensures first { self.new.first ≡ self.old.first }
        ensures made { length self.new.places ≡ length self.old.places }
    {
        if self.get(ticket).is_none() {
            return None;
        }
        Some(self.take(ticket))
    }

    // Takes the record of a live ticket out, and frees or retires its slot.
    fn take(&mut self, ticket: Ticket) -> T
        requires { IsSome (find self.old ticket) }
        ensures value { find self.old ticket ≡ Some result }
        ensures taken { Puts self.old self.new ticket.slot (None, ticket.generation + 1) }
        ensures room { self.new.room ≡ self.old.room + after_removal ticket }
        ensures first { self.new.first ≡ self.old.first }
        ensures made { length self.new.places ≡ length self.old.places }
    {
        let slot = ticket.slot;
        if ticket.generation == u32::MAX {
            let retired = Slot {
                generation: ticket.generation,
                state: State::Retired,
            };
            let Slot {
                generation: _,
                state,
            } = mem::replace(&mut self.slots[slot], retired);
            match state {
                State::Live(value) => value,
                State::Free(_) => unreachable!(),
                State::Retired => unreachable!(),
            }
        } else {
            let free = Slot {
                generation: ticket.generation + 1,
                state: State::Free(self.head),
            };
            let Slot {
                generation: _,
                state,
            } = mem::replace(&mut self.slots[slot], free);
            match state {
                State::Live(value) => {
                    self.head = Some(slot);
                    self.free += 1;
                    value
                }
                State::Free(_) => unreachable!(),
                State::Retired => unreachable!(),
            }
        }
    }
}
