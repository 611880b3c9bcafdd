ghost use Rattle.std.specs.Prelude.{◌≡◌, None, Some, IfNone, IfSome, OnErr, OnOk};
ghost use Rattle.std.specs.Option.{option_copied, option_map};
ghost use Rattle.std.specs.Range.Bound.{bound_map};
ghost use Rattle.unit_table.specs.Board.{piece_in, ComesAfter, IsNextIn};
ghost use Rattle.unit_table.specs.Keeping.{after_bound, slot_at, ticket_at, IsMarkedAs, IsPlaceTaken};
ghost use Rattle.unit_table.specs.Piece.{becoming, moved, with_mark, with_state};
ghost use Rattle.value_core.specs.Named.{with_named, IsChanged, Name as Called};

use crate::mark::Mark;
use crate::piece::{Piece, machine_goes};
use crate::place::Place;
use crate::unit::Becoming;
use eval_step::Machine;
use serial_model::ActorState;
use std::alloc::{AllocError, Global};
use std::collections::{BTreeMap, Bound};
use std::mem;
use value_core::name_map::{find, put};
use value_core::{Name, Ticket};

/// The place under a name: its ticket, and what stands there, where something does.
#[derive(Drop)]
pub struct Record {
    pub(crate) ticket: Ticket,
    pub(crate) piece: Option<Piece>,
}

/// The ticket of the place under the name, where there is one.
pub(crate) fn ticket_in(records: &BTreeMap<Name, Place>, name: &Name) -> Option<Ticket>
    ensures { result ≡ ticket_at records.now.entries name.now }
{
    match find(records, name) {
        Some(place) => Some(place.kept().ticket),
        None => None,
    }
}

/// The slot of the place under the name, where there is one.
pub(crate) fn slot_in(records: &BTreeMap<Name, Place>, name: &Name) -> Option<usize>
    ensures { result ≡ slot_at records.now.entries name.now }
{
    match find(records, name) {
        Some(place) => Some(place.kept().ticket.slot),
        None => None,
    }
}

/// The first name after this one under which something stands, or of all where none is given.
pub(crate) fn next_after<'a>(
    records: &'a BTreeMap<Name, Place>,
    name: Option<&Name>,
) -> Option<&'a Name>
    ensures some { IfSome (option_copied result) (IsNextIn records.now.entries (option_copied name.entry)) }
    ensures none { IfNone (option_copied result) ((other : Called) → ComesAfter (option_copied name.entry) other → piece_in records.now.entries other ≡ None) }
{
    for (next, place) in records.range((start_after(name), Bound::Unbounded)) {
        if place.kept().piece.is_some() {
            return Some(next);
        }
    }
    None
}

/// From where on the names come after this one.
fn start_after(name: Option<&Name>) -> Bound<&Name>
    ensures { bound_map (λ q. q.now) result ≡ after_bound (option_copied name.entry) }
{
    match name {
        Some(name) => Bound::Excluded(name),
        None => Bound::Unbounded,
    }
}

/// Makes an empty place of that ticket under the name. For want of memory the places stay.
pub(crate) fn put_place(
    records: &mut BTreeMap<Name, Place>,
    alloc: Global,
    name: Name,
    ticket: Ticket,
) -> Result<(), AllocError>
    ensures put { OnOk result (records.new.entries ≡ with_named records.old.entries name (record { ticket = ticket; piece = None })) }
    ensures same { OnErr result (records.new.entries ≡ records.old.entries) }
{
    let empty = Record {
        ticket,
        piece: None,
    };
    let place = Place::new(alloc, empty)?;
    put(records, name, place)
}

/// Takes the place under the name out, where there is one. It takes no memory.
pub(crate) fn take_place(records: &mut BTreeMap<Name, Place>, name: &Name)
    ensures { IsPlaceTaken name.now records.old.entries records.new.entries }
{
    let _place = records.remove(name);
}

/// Puts the piece into the place, where there is one. It takes no memory.
pub(crate) fn fill(records: &mut BTreeMap<Name, Place>, name: &Name, piece: Piece)
    ensures { IsChanged name.now records.old.entries records.new.entries (λ r after. after ≡ record r { piece = Some piece }) }
{
    match records.get_mut(name) {
        Some(place) => place.put(Some(piece)),
        None => let_go(Some(piece)),
    }
}

/// Puts the mark on what stands in the place, where something does; it is gone where it is dropped. It answers the ticket of
/// the place, where there is one. It takes no memory.
pub(crate) fn put_mark(
    records: &mut BTreeMap<Name, Place>,
    name: &Name,
    mark: Mark,
) -> Option<Ticket>
    ensures changed { IsChanged name.now records.old.entries records.new.entries (IsMarkedAs mark) }
    ensures ticket { result ≡ ticket_at records.old.entries name.now }
{
    match records.get_mut(name) {
        Some(place) => {
            place.put_mark(mark);
            Some(place.kept().ticket)
        }
        None => None,
    }
}

/// Puts the machine of the unit in the place, where there is one, and how many things it has made. It takes no memory.
pub(crate) fn move_unit(
    records: &mut BTreeMap<Name, Place>,
    name: &Name,
    machine: Machine,
    made: u32,
)
    ensures { IsChanged name.now records.old.entries records.new.entries (λ r after. after ≡ record r { piece = option_map (moved machine made) r.piece }) }
{
    match records.get_mut(name) {
        Some(place) => place.move_unit(machine, made),
        None => machine_goes(machine),
    }
}

/// Puts what the actor of the unit in the place becomes at its end, where that is said. It takes no memory.
pub(crate) fn turn_into(records: &mut BTreeMap<Name, Place>, name: &Name, next: Option<Becoming>)
    ensures { IsChanged name.now records.old.entries records.new.entries (λ r after. after ≡ record r { piece = option_map (becoming next) r.piece }) }
{
    match records.get_mut(name) {
        Some(place) => place.turn_into(next),
        None => {}
    }
}

/// Puts the state of the actor in the place, where there is one. It takes no memory.
pub(crate) fn set_actor(records: &mut BTreeMap<Name, Place>, name: &Name, state: ActorState)
    ensures { IsChanged name.now records.old.entries records.new.entries (λ r after. after ≡ record r { piece = option_map (with_state state) r.piece }) }
{
    match records.get_mut(name) {
        Some(place) => place.set_actor(state),
        None => {}
    }
}

impl Record {
    pub(crate) fn put(&mut self, piece: Option<Piece>)
        ensures { self.new ≡ record self.old { piece = piece } }
    {
        let_go(mem::replace(&mut self.piece, piece));
    }

    pub(crate) fn move_unit(&mut self, machine: Machine, made: u32)
        ensures { self.new ≡ record self.old { piece = option_map (moved machine made) self.old.piece } }
    {
        match &mut self.piece {
            Some(piece) => piece.move_unit(machine, made),
            None => machine_goes(machine),
        }
    }

    pub(crate) fn turn_into(&mut self, next: Option<Becoming>)
        ensures { self.new ≡ record self.old { piece = option_map (becoming next) self.old.piece } }
    {
        match &mut self.piece {
            Some(piece) => piece.turn_into(next),
            None => {}
        }
    }

    pub(crate) fn set_actor(&mut self, state: ActorState)
        ensures { self.new ≡ record self.old { piece = option_map (with_state state) self.old.piece } }
    {
        match &mut self.piece {
            Some(piece) => piece.set_actor(state),
            None => {}
        }
    }

    pub(crate) fn put_mark(&mut self, mark: Mark)
        ensures { IsMarkedAs mark self.old self.new }
    {
        if mark.is_dropped() {
            self.put(None);
        } else {
            self.keep_mark(mark);
        }
    }

    fn keep_mark(&mut self, mark: Mark)
        ensures { self.new ≡ record self.old { piece = option_map (λ p. with_mark p mark) self.old.piece } }
    {
        match &mut self.piece {
            Some(piece) => piece.set_mark(mark),
            None => {}
        }
    }
}

/// Drops what stood in a place.
fn let_go(_piece: Option<Piece>) {}
