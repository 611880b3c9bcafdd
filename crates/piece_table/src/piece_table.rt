ghost use Rattle.std.specs.Prelude.{◌≡◌, ◌↔◌, ◌<◌, ◌≤◌, ◌^◌, None, Some, IfNone, IfOk, IfSome, IsSome, IsTrue, OnErr, false, length, slice_set, true};
ghost use Rattle.std.specs.Option.{option_copied};
ghost use Rattle.value_core.specs.declared.ticket.Ticket.{Ticket as Numbered};
ghost use Rattle.record_pool.specs.Pool.{find};
ghost use Rattle.record_pool.specs.Tickets.{HasMoreRoom, IsGiven, IsPut};
ghost use Rattle.piece_table.specs.Table.{AreFlags, AreTied, CanLend, IsTakenBack, IsUnlent, can_lend, has_free};

use crate::Piece;
use record_pool::Pool;
use slot_set::SlotSet;
use std::alloc::{AllocError, Global};
use std::marker::Model;
use value_core::Ticket;

/// Pieces under tickets. A piece that is ready can be lent: it is then kept under the ticket of a claim, and not lent again
/// before that claim is taken back. Only `add` and `lend` take memory, and none of a piece's changes touches more than a few
/// words.
#[derive(Drop)]
pub struct PieceTable {
    pieces: Pool<Piece>,
    claims: Pool<Ticket>,
    // The slots of the pieces that can be lent.
    ready: SlotSet,
}

impl Model for PieceTable {
    ghost use Rattle.piece_table.specs.Table.{AreFlags, AreTied, Table, table_code};

    ghost Value = { Table };

    ghost coded = { table_code };

    ghost view = { λ t. record { pieces = t.pieces; claims = t.claims } };

    ghost invariant = { λ t. AreFlags t.pieces t.ready × AreTied t.pieces t.claims };
}

impl PieceTable {
    /// No pieces. It takes no memory.
    pub fn new(alloc: Global) -> Self
        ensures pieces { (ticket : Numbered) → find result.pieces ticket ≡ None }
        ensures claims { (claim : Numbered) → find result.claims claim ≡ None }
    {
        PieceTable {
            pieces: Pool::new(alloc),
            claims: Pool::new(alloc),
            ready: SlotSet::new(alloc),
        }
    }

    /// The piece of the ticket. None where the ticket is not live. It takes no memory.
    pub fn get(&self, ticket: Ticket) -> Option<&Piece>
        ensures { option_copied result ≡ find self.now.pieces ticket }
    {
        self.pieces.get(ticket)
    }

    /// Whether the piece of the ticket is there, ready and not lent. It takes no memory.
    pub fn can_lend(&self, ticket: Ticket) -> bool
        ensures { result ≡ has_free (find self.now.pieces ticket) }
    {
        match self.pieces.get(ticket) {
            Some(piece) => can_be_lent(*piece),
            None => false,
        }
    }

    /// How many slots were made for pieces.
    pub fn slots(&self) -> usize
        ensures value { result ≡ length self.now.pieces.places }
        ensures small { result < 2 ^ 63 }
    {
        self.pieces.slots()
    }

    /// Each claim lends a piece that says so, and each piece that is lent has its claim. It does nothing.
    pub fn claims_are_tied(&self)
        ensures { AreTied self.now.pieces self.now.claims }
    {
        let _slots = self.pieces.slots();
    }

    /// A piece that can be lent. None exactly where there is none. It takes no memory.
    pub fn first_ready(&self) -> Option<Ticket>
        ensures some { IfSome result (CanLend self.now) }
        ensures none { IfNone result ((piece : Numbered) → has_free (find self.now.pieces piece) ≡ false) }
    {
        let slot = self.ready.first()?;
        self.pieces.ticket_at(slot)
    }

    /// The piece that the claim lends. None exactly where the claim is not live. It takes no memory.
    pub fn piece_of(&self, claim: Ticket) -> Option<Ticket>
        ensures { result ≡ find self.now.claims claim }
    {
        self.claims.get(claim).copied()
    }

    /// Adds a piece, which is not lent, under a ticket that was never given out; or finds no memory, and changes nothing.
    pub fn add(&mut self, is_ready: bool) -> Result<Ticket, AllocError>
        ensures added { IfOk result (λ ticket. IsGiven self.old.pieces self.new.pieces ticket (record { is_ready = is_ready; lent = None })) }
        ensures same { OnErr result (HasMoreRoom self.old.pieces self.new.pieces) }
        ensures claims { self.new.claims ≡ self.old.claims }
        ensures near { IfOk result (λ ticket. ticket.slot ≤ length self.old.pieces.places) }
    {
        self.pieces.reserve(1)?;
        self.ready.reserve(self.pieces.slots() + 1)?;
        let ticket = self.pieces.insert(Piece {
            is_ready,
            lent: None,
        });
        flag(&mut self.ready, ticket.slot, is_ready);
        Ok(ticket)
    }

    /// Makes the piece ready, or not. The claim that lends it, where there is one, is live no more. It takes no memory.
    pub fn mark(&mut self, ticket: Ticket, is_ready: bool)
        requires { IsSome (find self.old.pieces ticket) }
        ensures marked { IsPut self.old.pieces self.new.pieces ticket (Some (record { is_ready = is_ready; lent = None })) }
        ensures claims { IfSome (find self.old.pieces ticket) (λ piece. IsUnlent self.old.claims self.new.claims piece.lent) }
    {
        let piece = Piece {
            is_ready,
            lent: None,
        };
        let was = replace(&mut self.pieces, &mut self.ready, ticket, piece);
        match was.lent {
            Some(claim) => {
                self.claims.remove(claim);
            }
            None => {}
        }
    }

    /// Takes the piece out, which comes back. None where the ticket is not live. The claim that lends it, where there is one,
    /// is live no more. It takes no memory.
    pub fn remove(&mut self, ticket: Ticket) -> Option<Piece>
        ensures piece { result ≡ find self.old.pieces ticket }
        ensures same { IfNone result (self.new ≡ self.old) }
        ensures gone { IsSome result → IsPut self.old.pieces self.new.pieces ticket None }
        ensures claims { IfSome result (λ piece. IsUnlent self.old.claims self.new.claims piece.lent) }
    {
        if self.get(ticket).is_none() {
            return None;
        }
        let was = take_out(&mut self.pieces, &mut self.ready, ticket);
        match was.lent {
            Some(claim) => {
                self.claims.remove(claim);
            }
            None => {}
        }
        Some(was)
    }

    /// Lends the piece under a claim whose ticket was never given out; or finds no memory, and changes nothing.
    pub fn lend(&mut self, piece: Ticket) -> Result<Ticket, AllocError>
        requires { CanLend self.old piece }
        ensures lent { IfOk result (λ claim. IsPut self.old.pieces self.new.pieces piece (Some (record { is_ready = true; lent = Some claim }))) }
        ensures claimed { IfOk result (λ claim. IsGiven self.old.claims self.new.claims claim piece) }
        ensures pieces { OnErr result (self.new.pieces ≡ self.old.pieces) }
        ensures claims { OnErr result (HasMoreRoom self.old.claims self.new.claims) }
    {
        self.claims.reserve(1)?;
        let claim = self.claims.insert(piece);
        let lent = Piece {
            is_ready: true,
            lent: Some(claim),
        };
        replace(&mut self.pieces, &mut self.ready, piece, lent);
        Ok(claim)
    }

    /// Takes the claim back, and says whether it was live. The piece that it lent keeps its mark. It takes no memory.
    pub fn take_back(&mut self, claim: Ticket) -> bool
        ensures live { IsTrue result ↔ IsSome (find self.old.claims claim) }
        ensures same { IfNone (find self.old.claims claim) (self.new ≡ self.old) }
        ensures pieces { IfSome (find self.old.claims claim) (λ piece. IsTakenBack self.old.pieces self.new.pieces piece) }
        ensures claims { IsSome (find self.old.claims claim) → IsPut self.old.claims self.new.claims claim None }
    {
        match self.claims.remove(claim) {
            Some(piece) => {
                unlend(&mut self.pieces, &mut self.ready, piece);
                true
            }
            None => false,
        }
    }
}

/// Takes a piece out that is there.
fn take_out(pieces: &mut Pool<Piece>, ready: &mut SlotSet, ticket: Ticket) -> Piece
    requires flags { AreFlags pieces.old ready.old }
    requires there { IsSome (find pieces.old ticket) }
    ensures flags { AreFlags pieces.new ready.new }
    ensures was { find pieces.old ticket ≡ Some result }
    ensures gone { IsPut pieces.old pieces.new ticket None }
{
    flag(ready, ticket.slot, false);
    match pieces.remove(ticket) {
        Some(piece) => piece,
        None => unreachable!(),
    }
}

/// The piece is not lent any more, and keeps its mark.
fn unlend(pieces: &mut Pool<Piece>, ready: &mut SlotSet, ticket: Ticket)
    requires flags { AreFlags pieces.old ready.old }
    requires there { IsSome (find pieces.old ticket) }
    ensures flags { AreFlags pieces.new ready.new }
    ensures taken { IsTakenBack pieces.old pieces.new ticket }
{
    if let Some(piece) = pieces.get(ticket).copied() {
        replace(
            pieces,
            ready,
            ticket,
            Piece {
                is_ready: piece.is_ready,
                lent: None,
            },
        );
    }
}

/// Puts the piece in the place of the ticket's, which comes back, and notes whether it can be lent.
fn replace(pieces: &mut Pool<Piece>, ready: &mut SlotSet, ticket: Ticket, piece: Piece) -> Piece
    requires flags { AreFlags pieces.old ready.old }
    requires there { IsSome (find pieces.old ticket) }
    ensures flags { AreFlags pieces.new ready.new }
    ensures was { find pieces.old ticket ≡ Some result }
    ensures put { IsPut pieces.old pieces.new ticket (Some piece) }
{
    flag(ready, ticket.slot, can_be_lent(piece));
    pieces.put(ticket, piece)
}

/// Whether the piece is ready and not lent.
fn can_be_lent(piece: Piece) -> bool
    ensures { result ≡ can_lend piece }
{
    piece.is_ready && piece.lent.is_none()
}

/// Puts the slot into the set, or takes it out.
fn flag(ready: &mut SlotSet, slot: usize, is_member: bool)
    requires { slot < length ready.old }
    ensures { ready.new ≡ slice_set ready.old slot is_member }
{
    if is_member {
        ready.insert(slot);
    } else {
        ready.remove(slot);
    }
}
