ghost use Rattle.std.specs.Prelude.{◌≡◌, ◌↔◌, None, Some, IfNone, IfOk, IfSome, IsOk, IsTrue, OnErr, OnOk, false, true};
ghost use Rattle.std.specs.Option.{IsSome, option_copied};
ghost use Rattle.unit_table.specs.Board.{actor_at, is_ready, is_unfinished, lent_to, mark_at, piece_at, unit_at, AreTied, CanWait, ComesAfter, HasPlace, IsLent, IsMarked, IsNextAfter, IsPutAt, IsUnlent, LentAreReady, NoneWaits, SameClaims, SamePieces};
ghost use Rattle.unit_table.specs.declared.mark.Mark.TheVariants as mark;
ghost use Rattle.unit_table.specs.declared.mark.Work.TheVariants as work;
ghost use Rattle.unit_table.specs.declared.piece.Piece.TheVariants as piece;
ghost use Rattle.value_core.specs.Named.{Name as Called};
ghost use Rattle.value_core.specs.declared.ticket.Ticket.{Ticket as Numbered};

use crate::mark::{Mark, Work};
use crate::piece::{Actor, Piece, machine_goes};
use crate::places::Places;
use crate::record::next_after;
use crate::unfinished::{first, note, place};
use crate::unit::{Becoming, Unit, UnitKind};
use eval_step::Machine;
use serial_model::ActorState;
use slot_set::SlotSet;
use std::alloc::{AllocError, Global};
use std::marker::Model;
use value_core::{Name, Ticket};

/// Units, tasks and actors by name, with their marks. What is ready can be lent under a claim, and is not lent again before
/// that claim is taken back or a mark ends it. Only `reserve`, the additions and `lend` take memory.
pub struct Units {
    places: Places,
    // The slots of the units that are not finished.
    unfinished: SlotSet,
}

impl Model for Units {
    ghost use Rattle.unit_table.specs.Board.{Board, board_code};
    ghost use Rattle.unit_table.specs.Keeping.{board_of, AreUnfinished, IsKept};

    ghost Value = { Board };

    ghost coded = { board_code };

    ghost view = { λ u. board_of u.places };

    ghost invariant = { λ u. IsKept (board_of u.places) u.places.waits × AreUnfinished (board_of u.places) u.unfinished };
}

impl Drop for Units {
    fn drop(self) {
        let Units {
            places: _places,
            unfinished: _unfinished,
        } = self;
    }
}

impl Units {
    /// Nothing stands anywhere. It takes no memory.
    pub fn new(alloc: Global) -> Self
        ensures pieces { (name : Called) → piece_at result name ≡ None }
        ensures claims { (claim : Numbered) → lent_to result claim ≡ None }
    {
        Units {
            places: Places::new(alloc),
            unfinished: SlotSet::new(alloc),
        }
    }

    /// Makes room for a piece under the name: adding one there takes no memory then, and something can wait for its finish.
    /// Or finds no memory. What stands and what is lent stays.
    pub fn reserve(&mut self, alloc: Global, name: &Name) -> Result<(), AllocError>
        ensures pieces { SamePieces self.old self.new }
        ensures claims { SameClaims self.old self.new }
        ensures place { OnOk result (HasPlace self.new name.now) }
        ensures places { (other : Called) → HasPlace self.old other → HasPlace self.new other }
    {
        place(&mut self.places, &mut self.unfinished, alloc, name)?;
        Ok(())
    }

    /// Adds a unit that has made nothing and is ready to go on. Where there is a place for it, it takes no memory, and
    /// succeeds; for want of memory nothing changes.
    pub fn add_unit(
        &mut self,
        alloc: Global,
        name: Name,
        kind: UnitKind,
        machine: Machine,
    ) -> Result<(), AllocError>
        requires { piece_at self.old name ≡ None }
        ensures added { OnOk result (IsPutAt name (Some (piece.Unit (record { name = name; kind = kind; machine = machine; made = 0; becomes = None; mark = mark.Ready work.Eval }))) self.old self.new) }
        ensures same { OnErr result (SamePieces self.old self.new) }
        ensures claims { SameClaims self.old self.new }
        ensures succeeds { HasPlace self.old name → IsOk result }
        ensures places { (other : Called) → HasPlace self.old other → HasPlace self.new other }
    {
        match place(&mut self.places, &mut self.unfinished, alloc, &name) {
            Ok(ticket) => {
                self.places
                    .fill(ticket, Piece::Unit(Unit::new(name, kind, machine)));
                self.unfinished.insert(ticket.slot);
                Ok(())
            }
            Err(error) => {
                machine_goes(machine);
                Err(error)
            }
        }
    }

    /// Adds an actor, which rests. Where there is a place for it, it takes no memory, and succeeds; for want of memory
    /// nothing changes.
    pub fn add_actor(
        &mut self,
        alloc: Global,
        name: &Name,
        state: ActorState,
    ) -> Result<(), AllocError>
        requires { piece_at self.old name.now ≡ None }
        ensures added { OnOk result (IsPutAt name.now (Some (piece.Actor (record { state = state; mark = mark.Resting }))) self.old self.new) }
        ensures same { OnErr result (SamePieces self.old self.new) }
        ensures claims { SameClaims self.old self.new }
        ensures succeeds { HasPlace self.old name.now → IsOk result }
        ensures places { (other : Called) → HasPlace self.old other → HasPlace self.new other }
    {
        let ticket = place(&mut self.places, &mut self.unfinished, alloc, name)?;
        let actor = Actor {
            state,
            mark: Mark::Resting,
        };
        self.places.fill(ticket, Piece::Actor(actor));
        Ok(())
    }

    /// Adds a task, whose machine its attempt keeps. It is ready to go on. Where there is a place for it, it takes no memory,
    /// and succeeds; for want of memory nothing changes.
    pub fn add_task(&mut self, alloc: Global, name: &Name) -> Result<(), AllocError>
        requires { piece_at self.old name.now ≡ None }
        ensures added { OnOk result (IsPutAt name.now (Some (piece.Task (mark.Ready work.Eval))) self.old self.new) }
        ensures same { OnErr result (SamePieces self.old self.new) }
        ensures claims { SameClaims self.old self.new }
        ensures succeeds { HasPlace self.old name.now → IsOk result }
        ensures places { (other : Called) → HasPlace self.old other → HasPlace self.new other }
    {
        let ticket = place(&mut self.places, &mut self.unfinished, alloc, name)?;
        self.places
            .fill(ticket, Piece::Task(Mark::Ready(Work::Eval)));
        Ok(())
    }

    /// What stands under the name. None exactly where nothing does.
    pub fn piece(&self, name: &Name) -> Option<&Piece>
        ensures { option_copied result ≡ piece_at self.now name.now }
    {
        self.places.piece(name)
    }

    /// The unit of the name. None exactly where there is none.
    pub fn unit(&self, name: &Name) -> Option<&Unit>
        ensures { option_copied result ≡ unit_at self.now name.now }
    {
        match self.places.piece(name) {
            Some(Piece::Unit(unit)) => Some(unit),
            _ => None,
        }
    }

    /// The actor of the name. None exactly where there is none.
    pub fn actor(&self, name: &Name) -> Option<&ActorState>
        ensures { option_copied result ≡ actor_at self.now name.now }
    {
        match self.places.piece(name) {
            Some(Piece::Actor(actor)) => Some(&actor.state),
            _ => None,
        }
    }

    /// The mark of the unit, task or actor. None exactly where there is none; what was dropped is there no more.
    pub fn mark_of(&self, name: &Name) -> Option<&Mark>
        ensures { option_copied result ≡ mark_at self.now name.now }
    {
        match self.places.piece(name) {
            Some(piece) => Some(piece.mark()),
            None => None,
        }
    }

    /// The unit's machine, and how many things it has made. It takes no memory.
    pub fn move_unit(&mut self, name: &Name, machine: Machine, made: u32)
        requires { IsSome (unit_at self.old name.now) }
        ensures moved { IfSome (unit_at self.old name.now) (λ unit. IsPutAt name.now (Some (piece.Unit (record unit { machine = machine; made = made }))) self.old self.new) }
        ensures claims { SameClaims self.old self.new }
        ensures places { (other : Called) → HasPlace self.old other → HasPlace self.new other }
    {
        self.places.move_unit(name, machine, made);
    }

    /// At the unit's end its actor becomes that. It takes no memory.
    pub fn turn_into(&mut self, name: &Name, next: Becoming)
        requires { IsSome (unit_at self.old name.now) }
        ensures turned { IfSome (unit_at self.old name.now) (λ unit. IsPutAt name.now (Some (piece.Unit (record unit { becomes = Some next }))) self.old self.new) }
        ensures claims { SameClaims self.old self.new }
        ensures places { (other : Called) → HasPlace self.old other → HasPlace self.new other }
    {
        self.places.turn_into(name, Some(next));
    }

    /// What the unit's actor was to become before is what it becomes, and nothing where that was not said. It takes no memory.
    pub fn turn_back(&mut self, name: &Name, before: Option<Becoming>)
        requires { IsSome (unit_at self.old name.now) }
        ensures turned { IfSome (unit_at self.old name.now) (λ unit. IsPutAt name.now (Some (piece.Unit (record unit { becomes = before }))) self.old self.new) }
        ensures claims { SameClaims self.old self.new }
        ensures places { (other : Called) → HasPlace self.old other → HasPlace self.new other }
    {
        self.places.turn_into(name, before);
    }

    /// The actor's state. It takes no memory.
    pub fn set_actor(&mut self, name: &Name, state: ActorState)
        requires { IsSome (actor_at self.old name.now) }
        ensures set { IfSome (mark_at self.old name.now) (λ mark. IsPutAt name.now (Some (piece.Actor (record { state = state; mark = mark }))) self.old self.new) }
        ensures claims { SameClaims self.old self.new }
        ensures places { (other : Called) → HasPlace self.old other → HasPlace self.new other }
    {
        self.places.set_actor(name, state);
    }

    /// Puts the mark on what stands under the name. The claim that lends it, where there is one, is live no more. Where it is
    /// dropped, it is gone; where it is finished, each piece that waits for its finish is ready to settle. It takes no memory.
    pub fn mark(&mut self, name: &Name, mark: Mark)
        requires there { IsSome (piece_at self.old name.now) }
        requires can_wait { CanWait self.old mark }
        ensures marked { IsMarked name.now mark self.old self.new }
        ensures claims { IsUnlent name.now self.old self.new }
        ensures places { (other : Called) → HasPlace self.old other → HasPlace self.new other }
    {
        self.places.mark(name, mark);
        note(&self.places, &mut self.unfinished, name);
    }

    /// Gives up the place under the name, where nothing stands there and nothing waits for its finish. It takes no memory.
    pub fn forget(&mut self, name: &Name)
        ensures pieces { SamePieces self.old self.new }
        ensures claims { SameClaims self.old self.new }
        ensures gone { piece_at self.old name.now ≡ None → NoneWaits name.now self.old → HasPlace self.new name.now → ⊥ }
        ensures places { (other : Called) → (other ≡ name.now → ⊥) → HasPlace self.old other → HasPlace self.new other }
    {
        self.places.forget(name);
    }

    /// Whether something can be done with what stands under the name, and it is not lent.
    pub fn is_ready(&self, name: &Name) -> bool
        ensures { result ≡ is_ready self.now name.now }
    {
        self.places.is_ready(name)
    }

    /// The name of something that is ready. None exactly where nothing is. It touches a few words.
    pub fn first_ready(&self) -> Option<&Name>
        ensures some { IfSome (option_copied result) (λ name. is_ready self.now name ≡ true) }
        ensures none { IfNone (option_copied result) ((name : Called) → is_ready self.now name ≡ false) }
    {
        self.places.first_ready()
    }

    /// Lends what stands under the name under a claim that was never given out; or finds no memory, and changes nothing.
    pub fn lend(&mut self, name: &Name) -> Result<Ticket, AllocError>
        requires { is_ready self.old name.now ≡ true }
        ensures lent { IfOk result (λ claim. IsLent name.now claim self.old self.new) }
        ensures pieces { SamePieces self.old self.new }
        ensures same { OnErr result (SameClaims self.old self.new) }
        ensures places { (other : Called) → HasPlace self.old other → HasPlace self.new other }
    {
        self.places.lend(name)
    }

    /// The name of what the claim lends. None exactly where the claim is not live. It takes no memory.
    pub fn piece_of(&self, claim: Ticket) -> Option<&Name>
        ensures { option_copied result ≡ lent_to self.now claim }
    {
        self.places.piece_of(claim)
    }

    /// Takes the claim back, and says whether it was live. What it lent keeps its mark. It takes no memory.
    pub fn take_back(&mut self, claim: Ticket) -> bool
        ensures live { IsTrue result ↔ IsSome (lent_to self.old claim) }
        ensures pieces { SamePieces self.old self.new }
        ensures unlent { IfSome (lent_to self.old claim) (λ name. IsUnlent name self.old self.new) }
        ensures same { IfNone (lent_to self.old claim) (SameClaims self.old self.new) }
        ensures places { (other : Called) → HasPlace self.old other → HasPlace self.new other }
    {
        self.places.take_back(claim)
    }

    /// The name of a unit that is not finished. None exactly where each unit is finished. It touches a few words.
    pub fn open_unit(&self) -> Option<&Name>
        ensures some { IfSome (option_copied result) (λ name. is_unfinished self.now name ≡ true) }
        ensures none { IfNone (option_copied result) ((name : Called) → is_unfinished self.now name ≡ false) }
    {
        first(&self.places, &self.unfinished)
    }

    /// What stands under the first name that comes after this one in after-order, or of all where none is given: that name.
    /// None exactly where nothing does.
    pub fn next_after(&self, name: Option<&Name>) -> Option<&Name>
        ensures some { IfSome (option_copied result) (IsNextAfter self.now (option_copied name.entry)) }
        ensures none { IfNone (option_copied result) ((other : Called) → ComesAfter (option_copied name.entry) other → piece_at self.now other ≡ None) }
    {
        next_after(&self.places.records, name)
    }

    /// What is lent says by which claim, and each claim lends what says so. It does nothing.
    pub fn claims_are_tied(&self)
        ensures { AreTied self.now }
    {
        self.places.table.claims_are_tied();
    }

    /// What is lent can be done something with. It does nothing.
    pub fn lent_are_ready(&self)
        ensures { LentAreReady self.now }
    {
        self.places.table.claims_are_tied();
    }
}
