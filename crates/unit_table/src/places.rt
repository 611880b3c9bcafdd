ghost use Rattle.std.specs.Prelude.{◌≡◌, ◌≢◌, ◌<◌, ◌↔◌, ℕ, None, Some, IfNone, IfOk, IfSome, IsOk, IsTrue, OnErr, OnOk, false, length, true};
ghost use Rattle.std.specs.Option.{IsSome, option_and_then, option_copied};
ghost use Rattle.record_pool.specs.Pool.{find as found};
ghost use Rattle.unit_table.specs.Board.{actor_at, is_ready, lent_to, mark_at, name_in, piece_at, unit_at, CanWait, HasPlace, IsLent, IsMarked, IsPutAt, IsUnlent, NoneWaits, SameClaims, SamePieces};
ghost use Rattle.unit_table.specs.Keeping.{board_of, need_at, ticket_at, IsEmptyPlace, IsInUse, IsKept, IsNoSlotMade, IsNoted, IsSlotMade, IsSpare, KeepsSlots, LosesSlots, SameSlots};
ghost use Rattle.unit_table.specs.Piece.{awaited, mark_in, marked};
ghost use Rattle.value_core.specs.Named.{named, IsChanged, Name as Called};
ghost use Rattle.unit_table.specs.declared.piece.Piece.TheVariants as piece;
ghost use Rattle.value_core.specs.declared.ticket.Ticket.{Ticket as Numbered};
ghost use Rattle.wait_lists.specs.WaitLists.{need_of};

use crate::mark::{Mark, WaitOn};
use crate::piece::Piece;
use crate::place::Place;
use crate::record::{
    fill, move_unit, put_mark, put_place, set_actor, slot_in, take_place, ticket_in, turn_into,
};
use crate::unit::Becoming;
use crate::waking::wake_all;
use eval_step::Machine;
use piece_table::PieceTable;
use serial_model::ActorState;
use std::alloc::{AllocError, Global};
use std::collections::BTreeMap;
use value_core::name_map::find;
use value_core::{Name, Ticket};
use wait_lists::WaitLists;

/// The places by name; of each slot the name; which pieces are ready and lent; and which slot waits for the finish of which.
#[derive(Drop)]
pub struct Places {
    pub(crate) records: BTreeMap<Name, Place>,
    pub(crate) names: Vec<Option<Name>>,
    pub(crate) table: PieceTable,
    pub(crate) waits: WaitLists,
}

impl Places {
    /// No places. It takes no memory.
    pub(crate) fn new(alloc: Global) -> Self
        ensures kept { IsKept (board_of result) result.waits }
        ensures pieces { (name : Called) → named name result.records.entries ≡ None }
        ensures claims { (claim : Numbered) → lent_to (board_of result) claim ≡ None }
    {
        let places = Places {
            records: BTreeMap::new(alloc),
            names: Vec::new(alloc),
            table: PieceTable::new(alloc),
            waits: WaitLists::new(alloc),
        };
        places.table.claims_are_tied();
        places
    }

    /// The ticket of the place under the name.
    pub(crate) fn ticket_of(&self, name: &Name) -> Option<Ticket>
        ensures { result ≡ ticket_at (board_of self.now).records name.now }
    {
        ticket_in(&self.records, name)
    }

    /// Makes a place under the name, where there is none, and answers its ticket; or finds no memory, and nothing stands
    /// otherwise.
    pub(crate) fn make(&mut self, alloc: Global, name: &Name) -> Result<Ticket, AllocError>
        requires kept { IsKept (board_of self.old) self.old.waits }
        requires new { named name.now (board_of self.old).records ≡ None }
        ensures kept { IsKept (board_of self.new) self.new.waits }
        ensures ticket { IfOk result (λ ticket. ticket_at (board_of self.new).records name.now ≡ Some ticket) }
        ensures pieces { SamePieces (board_of self.old) (board_of self.new) }
        ensures claims { SameClaims (board_of self.old) (board_of self.new) }
        ensures places { (other : Called) → HasPlace (board_of self.old) other → HasPlace (board_of self.new) other }
        ensures slots { KeepsSlots (board_of self.old) (board_of self.new) }
    {
        let key = name.copy(alloc)?;
        let ticket = self.make_slot(alloc, name)?;
        match put_place(&mut self.records, alloc, key, ticket) {
            Ok(()) => {
                self.table.claims_are_tied();
                Ok(ticket)
            }
            Err(error) => {
                self.table.remove(ticket);
                self.table.claims_are_tied();
                Err(error)
            }
        }
    }

    /// A new piece of the table, which is not ready, with a copy of the name in its slot.
    fn make_slot(&mut self, alloc: Global, name: &Name) -> Result<Ticket, AllocError>
        ensures made { IfOk result (IsSlotMade self.old self.new name.now) }
        ensures same { OnErr result (IsNoSlotMade self.old self.new) }
    {
        let called = name.copy(alloc)?;
        let slots = self.table.slots();
        self.waits.reserve(slots + 1)?;
        grow(&mut self.names, slots)?;
        let ticket = self.table.add(false)?;
        self.names[ticket.slot] = Some(called);
        Ok(ticket)
    }

    /// Puts the piece into the place of the ticket, which is empty. It takes no memory.
    pub(crate) fn fill(&mut self, ticket: Ticket, piece: Piece)
        requires kept { IsKept (board_of self.old) self.old.waits }
        requires place { IsEmptyPlace (board_of self.old) ticket }
        requires idle { awaited (mark_in piece) ≡ None }
        ensures kept { IsKept (board_of self.new) self.new.waits }
        ensures put { (name : Called) → ticket_at (board_of self.old).records name ≡ Some ticket → IsPutAt name (Some piece) (board_of self.old) (board_of self.new) }
        ensures claims { SameClaims (board_of self.old) (board_of self.new) }
        ensures places { (other : Called) → HasPlace (board_of self.old) other → HasPlace (board_of self.new) other }
        ensures slots { SameSlots (board_of self.old) (board_of self.new) }
    {
        let is_ready = piece.mark().is_ready();
        self.note(ticket, is_ready, None);
        fill_slot(&mut self.records, &self.names, ticket.slot, piece);
    }

    /// Puts the mark on the piece, which is gone where it is dropped. Who waited for its finish is ready to settle, where that
    /// is the mark. It takes no memory.
    pub(crate) fn mark(&mut self, name: &Name, mark: Mark)
        requires kept { IsKept (board_of self.old) self.old.waits }
        requires there { IsSome (piece_at (board_of self.old) name.now) }
        requires can_wait { CanWait (board_of self.old) mark }
        ensures kept { IsKept (board_of self.new) self.new.waits }
        ensures marked { IsMarked name.now mark (board_of self.old) (board_of self.new) }
        ensures claims { IsUnlent name.now (board_of self.old) (board_of self.new) }
        ensures places { (other : Called) → HasPlace (board_of self.old) other → HasPlace (board_of self.new) other }
        ensures slots { SameSlots (board_of self.old) (board_of self.new) }
    {
        let is_finished = mark.is_finished();
        let ticket = self.put_mark(name, mark);
        if is_finished {
            wake_all(self, name, ticket.slot);
        }
    }

    /// Puts the mark on that piece alone, and answers its ticket.
    fn put_mark(&mut self, name: &Name, mark: Mark) -> Ticket
        requires kept { IsKept (board_of self.old) self.old.waits }
        requires there { IsSome (piece_at (board_of self.old) name.now) }
        requires can_wait { CanWait (board_of self.old) mark }
        ensures kept { IsKept (board_of self.new) self.new.waits }
        ensures put { IsPutAt name.now (option_and_then (marked mark) (piece_at (board_of self.old) name.now)) (board_of self.old) (board_of self.new) }
        ensures claims { IsUnlent name.now (board_of self.old) (board_of self.new) }
        ensures ticket { ticket_at (board_of self.new).records name.now ≡ Some result }
        ensures places { (other : Called) → HasPlace (board_of self.old) other → HasPlace (board_of self.new) other }
        ensures slots { SameSlots (board_of self.old) (board_of self.new) }
    {
        let is_ready = mark.is_ready();
        let need = self.need_of(&mark);
        match put_mark(&mut self.records, name, mark) {
            Some(ticket) => {
                self.note(ticket, is_ready, need);
                ticket
            }
            None => unreachable!(),
        }
    }

    /// The slot of what a piece of that mark waits for.
    fn need_of(&self, mark: &Mark) -> Option<usize>
        ensures { result ≡ need_at (board_of self.now).records (awaited mark.now) }
    {
        match mark {
            Mark::Waiting(WaitOn::Finish(name)) => slot_in(&self.records, name),
            Mark::Waiting(WaitOn::Definite(_)) => None,
            Mark::Ready(_) | Mark::Resting | Mark::Finished(_) | Mark::Dropped => None,
        }
    }

    /// What stands under the name.
    pub(crate) fn piece(&self, name: &Name) -> Option<&Piece>
        ensures { option_copied result ≡ piece_at (board_of self.now) name.now }
    {
        match find(&self.records, name) {
            Some(place) => place.kept().piece.as_ref(),
            None => None,
        }
    }

    /// Puts the unit's machine, and how many things it has made.
    pub(crate) fn move_unit(&mut self, name: &Name, machine: Machine, made: u32)
        requires kept { IsKept (board_of self.old) self.old.waits }
        requires there { IsSome (unit_at (board_of self.old) name.now) }
        ensures kept { IsKept (board_of self.new) self.new.waits }
        ensures moved { IfSome (unit_at (board_of self.old) name.now) (λ unit. IsPutAt name.now (Some (piece.Unit (record unit { machine = machine; made = made }))) (board_of self.old) (board_of self.new)) }
        ensures claims { SameClaims (board_of self.old) (board_of self.new) }
        ensures places { (other : Called) → HasPlace (board_of self.old) other → HasPlace (board_of self.new) other }
        ensures slots { SameSlots (board_of self.old) (board_of self.new) }
    {
        move_unit(&mut self.records, name, machine, made);
    }

    /// Puts what the unit's actor becomes at its end, where that is said.
    pub(crate) fn turn_into(&mut self, name: &Name, next: Option<Becoming>)
        requires kept { IsKept (board_of self.old) self.old.waits }
        requires there { IsSome (unit_at (board_of self.old) name.now) }
        ensures kept { IsKept (board_of self.new) self.new.waits }
        ensures turned { IfSome (unit_at (board_of self.old) name.now) (λ unit. IsPutAt name.now (Some (piece.Unit (record unit { becomes = next }))) (board_of self.old) (board_of self.new)) }
        ensures claims { SameClaims (board_of self.old) (board_of self.new) }
        ensures places { (other : Called) → HasPlace (board_of self.old) other → HasPlace (board_of self.new) other }
        ensures slots { SameSlots (board_of self.old) (board_of self.new) }
    {
        turn_into(&mut self.records, name, next);
    }

    /// Puts the actor's state.
    pub(crate) fn set_actor(&mut self, name: &Name, state: ActorState)
        requires kept { IsKept (board_of self.old) self.old.waits }
        requires there { IsSome (actor_at (board_of self.old) name.now) }
        ensures kept { IsKept (board_of self.new) self.new.waits }
        ensures set { IfSome (mark_at (board_of self.old) name.now) (λ mark. IsPutAt name.now (Some (piece.Actor (record { state = state; mark = mark }))) (board_of self.old) (board_of self.new)) }
        ensures claims { SameClaims (board_of self.old) (board_of self.new) }
        ensures places { (other : Called) → HasPlace (board_of self.old) other → HasPlace (board_of self.new) other }
        ensures slots { SameSlots (board_of self.old) (board_of self.new) }
    {
        set_actor(&mut self.records, name, state);
    }

    /// The piece has that flag, is not lent any more, and waits for that slot, or for none. It takes no memory.
    fn note(&mut self, ticket: Ticket, is_ready: bool, need: Option<usize>)
        requires there { IsSome (found self.old.table.pieces ticket) }
        requires slot { ticket.slot < length self.old.waits }
        requires need { IfSome need (λ n. n < length self.old.waits) }
        ensures { IsNoted self.old self.new ticket is_ready need }
    {
        self.table.mark(ticket, is_ready);
        self.waits.stop(ticket.slot);
        if let Some(need) = need {
            self.waits.wait(ticket.slot, need);
        }
        self.table.claims_are_tied();
    }

    /// Whether something can be done with what stands under the name, and it is not lent.
    pub(crate) fn is_ready(&self, name: &Name) -> bool
        requires { IsKept (board_of self.now) self.now.waits }
        ensures { result ≡ is_ready (board_of self.now) name.now }
    {
        match self.ticket_of(name) {
            Some(ticket) => self.table.can_lend(ticket),
            None => false,
        }
    }

    /// Gives up the place under the name, where nothing stands there and nothing waits for its finish. It takes no memory.
    pub(crate) fn forget(&mut self, name: &Name)
        requires kept { IsKept (board_of self.old) self.old.waits }
        ensures kept { IsKept (board_of self.new) self.new.waits }
        ensures pieces { SamePieces (board_of self.old) (board_of self.new) }
        ensures claims { SameClaims (board_of self.old) (board_of self.new) }
        ensures gone { piece_at (board_of self.old) name.now ≡ None → NoneWaits name.now (board_of self.old) → HasPlace (board_of self.new) name.now → ⊥ }
        ensures places { (other : Called) → (other ≡ name.now → ⊥) → HasPlace (board_of self.old) other → HasPlace (board_of self.new) other }
        ensures slots { LosesSlots (board_of self.old) (board_of self.new) }
    {
        if let Some(ticket) = self.spare(name) {
            take_place(&mut self.records, name);
            take_name(&mut self.names, ticket.slot);
            self.table.remove(ticket);
            self.table.claims_are_tied();
        }
    }

    /// The ticket of the place under the name, where nothing stands there and nothing waits for its finish.
    fn spare(&self, name: &Name) -> Option<Ticket>
        ensures some { IfSome result (IsSpare (board_of self.now) self.now.waits name.now) }
        ensures none { IfNone result (IsInUse (board_of self.now) self.now.waits name.now) }
    {
        let place = find(&self.records, name)?.kept();
        let is_awaited = self.waits.is_awaited(place.ticket.slot);
        if place.piece.is_some() || is_awaited {
            return None;
        }
        Some(place.ticket)
    }

    /// The name of something that is ready.
    pub(crate) fn first_ready(&self) -> Option<&Name>
        requires { IsKept (board_of self.now) self.now.waits }
        ensures some { IfSome (option_copied result) (λ name. is_ready (board_of self.now) name ≡ true) }
        ensures none { IfNone (option_copied result) ((name : Called) → is_ready (board_of self.now) name ≡ false) }
    {
        match self.table.first_ready() {
            Some(ticket) => self.name_in(ticket.slot),
            None => None,
        }
    }

    /// The name that has the slot.
    pub(crate) fn name_in(&self, slot: usize) -> Option<&Name>
        ensures { option_copied result ≡ name_in self.now.names.items slot }
    {
        match self.names.get(slot) {
            Some(name) => name.as_ref(),
            None => None,
        }
    }

    /// Lends what stands under the name.
    pub(crate) fn lend(&mut self, name: &Name) -> Result<Ticket, AllocError>
        requires kept { IsKept (board_of self.old) self.old.waits }
        requires ready { is_ready (board_of self.old) name.now ≡ true }
        ensures kept { IsKept (board_of self.new) self.new.waits }
        ensures lent { IfOk result (λ claim. IsLent name.now claim (board_of self.old) (board_of self.new)) }
        ensures pieces { SamePieces (board_of self.old) (board_of self.new) }
        ensures same { OnErr result (SameClaims (board_of self.old) (board_of self.new)) }
        ensures places { (other : Called) → HasPlace (board_of self.old) other → HasPlace (board_of self.new) other }
        ensures slots { SameSlots (board_of self.old) (board_of self.new) }
    {
        match self.ticket_of(name) {
            Some(ticket) => {
                let claim = self.table.lend(ticket);
                self.table.claims_are_tied();
                claim
            }
            None => Err(AllocError),
        }
    }

    /// The name of what the claim lends.
    pub(crate) fn piece_of(&self, claim: Ticket) -> Option<&Name>
        ensures { option_copied result ≡ lent_to (board_of self.now) claim }
    {
        match self.table.piece_of(claim) {
            Some(ticket) => self.name_in(ticket.slot),
            None => None,
        }
    }

    /// Takes the claim back, and says whether it was live.
    pub(crate) fn take_back(&mut self, claim: Ticket) -> bool
        requires kept { IsKept (board_of self.old) self.old.waits }
        ensures kept { IsKept (board_of self.new) self.new.waits }
        ensures live { IsTrue result ↔ IsSome (lent_to (board_of self.old) claim) }
        ensures pieces { SamePieces (board_of self.old) (board_of self.new) }
        ensures unlent { IfSome (lent_to (board_of self.old) claim) (λ name. IsUnlent name (board_of self.old) (board_of self.new)) }
        ensures same { IfNone (lent_to (board_of self.old) claim) (SameClaims (board_of self.old) (board_of self.new)) }
        ensures places { (other : Called) → HasPlace (board_of self.old) other → HasPlace (board_of self.new) other }
        ensures slots { SameSlots (board_of self.old) (board_of self.new) }
    {
        match self.table.piece_of(claim) {
            Some(_) => {
                self.table.take_back(claim);
                self.table.claims_are_tied();
                true
            }
            None => false,
        }
    }
}

/// Puts the piece into the place of the name that has the slot.
fn fill_slot(
    records: &mut BTreeMap<Name, Place>,
    names: &Vec<Option<Name>>,
    slot: usize,
    piece: Piece,
)
    requires { IsSome (name_in names.now.items slot) }
    ensures { IfSome (name_in names.now.items slot) (λ name. IsChanged name records.old.entries records.new.entries (λ r after. after ≡ record r { piece = Some piece })) }
{
    match names.get(slot) {
        Some(Some(name)) => fill(records, name, piece),
        _ => unreachable!(),
    }
}

/// The slot has no name any more.
fn take_name(names: &mut Vec<Option<Name>>, slot: usize)
    ensures { (other : ℕ) → other ≢ slot → name_in names.new.items other ≡ name_in names.old.items other }
{
    if slot < names.len() {
        names[slot] = None;
    }
}

/// Makes it longer than that slot; the new ones have no name.
fn grow(names: &mut Vec<Option<Name>>, slot: usize) -> Result<(), AllocError>
    ensures same { (other : ℕ) → name_in names.new.items other ≡ name_in names.old.items other }
    ensures room { OnOk result (slot < length names.new.items) }
{
    while names.len() <= slot {
        names.push(None)?;
    }
    Ok(())
}
