ghost use Rattle.std.specs.Prelude.{◌≡◌};
ghost use Rattle.unit_table.specs.Piece.{becoming, mark_in, moved, with_mark, with_state};

use crate::mark::Mark;
use crate::unit::{Becoming, Unit};
use eval_step::Machine;
use serial_model::ActorState;

/// An actor and its mark.
#[derive(Drop)]
pub struct Actor {
    pub state: ActorState,
    pub mark: Mark,
}

/// What stands under a name. The machine of a task is kept by its attempt.
pub enum Piece {
    Unit(Unit),
    Task(Mark),
    Actor(Actor),
}

impl Drop for Piece {
    fn drop(self) {
        match self {
            Piece::Unit(_unit) => {}
            Piece::Task(_mark) => {}
            Piece::Actor(_actor) => {}
        }
    }
}

impl Piece {
    /// Its mark.
    pub fn mark(&self) -> &Mark
        ensures { result.now ≡ mark_in self.now }
    {
        match self {
            Piece::Unit(unit) => &unit.mark,
            Piece::Task(mark) => mark,
            Piece::Actor(actor) => &actor.mark,
        }
    }

    /// Puts the mark.
    pub(crate) fn set_mark(&mut self, mark: Mark)
        ensures { self.new ≡ with_mark self.old mark }
    {
        match self {
            Piece::Unit(unit) => unit.mark = mark,
            Piece::Task(kept) => *kept = mark,
            Piece::Actor(actor) => actor.mark = mark,
        }
    }

    /// Puts the machine of a unit, and how many things it has made.
    pub(crate) fn move_unit(&mut self, machine: Machine, made: u32)
        ensures { self.new ≡ moved machine made self.old }
    {
        match self {
            Piece::Unit(unit) => unit.move_to(machine, made),
            Piece::Task(_) | Piece::Actor(_) => machine_goes(machine),
        }
    }

    /// Puts what the actor of a unit becomes at its end, where that is said.
    pub(crate) fn turn_into(&mut self, next: Option<Becoming>)
        ensures { self.new ≡ becoming next self.old }
    {
        match self {
            Piece::Unit(unit) => unit.turn_into(next),
            Piece::Task(_) | Piece::Actor(_) => {}
        }
    }

    /// Puts the state of an actor.
    pub(crate) fn set_actor(&mut self, state: ActorState)
        ensures { self.new ≡ with_state state self.old }
    {
        match self {
            Piece::Actor(actor) => actor.state = state,
            Piece::Unit(_) | Piece::Task(_) => {}
        }
    }
}

/// Drops a machine.
pub(crate) fn machine_goes(_machine: Machine) {}
