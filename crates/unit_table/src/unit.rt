ghost use Rattle.std.specs.Prelude.{◌≡◌, None, Some};
ghost use Rattle.unit_table.specs.declared.mark.Mark.TheVariants as mark;
ghost use Rattle.unit_table.specs.declared.mark.Work.TheVariants as work;

use crate::mark::{Mark, Work};
use crate::piece::machine_goes;
use eval_step::Machine;
use std::mem;
use value_core::{Name, Values};

/// What a unit is: the first one, one that was forked, or a turn of an actor.
#[derive(Drop)]
pub enum UnitKind {
    Main,
    Plain,
    Turn(Name),
}

/// What an actor becomes at the end of its turn: a behaviour by its number, and a state.
#[derive(Drop)]
pub struct Becoming {
    pub behaviour: u32,
    pub state: Values,
}

/// A unit: what it is, where its evaluation stands, how many things it has made, what its actor becomes at its end, where that
/// is said, and its mark.
pub struct Unit {
    pub name: Name,
    pub kind: UnitKind,
    pub machine: Machine,
    pub made: u32,
    pub becomes: Option<Becoming>,
    pub mark: Mark,
}

impl Drop for Unit {
    fn drop(self) {
        let Unit {
            name: _name,
            kind: _kind,
            machine: _machine,
            made: _,
            becomes: _becomes,
            mark: _mark,
        } = self;
    }
}

impl Unit {
    /// A unit that has made nothing and is ready to go on.
    pub(crate) fn new(name: Name, kind: UnitKind, machine: Machine) -> Self
        ensures { result ≡ record { name = name; kind = kind; machine = machine; made = 0; becomes = None; mark = mark.Ready work.Eval } }
    {
        Unit {
            name,
            kind,
            machine,
            made: 0,
            becomes: None,
            mark: Mark::Ready(Work::Eval),
        }
    }

    /// Puts the machine, and how many things the unit has made.
    pub(crate) fn move_to(&mut self, machine: Machine, made: u32)
        ensures { self.new ≡ record self.old { machine = machine; made = made } }
    {
        machine_goes(mem::replace(&mut self.machine, machine));
        self.made = made;
    }

    /// Puts what the unit's actor becomes at its end, where that is said.
    pub(crate) fn turn_into(&mut self, becoming: Option<Becoming>)
        ensures { self.new ≡ record self.old { becomes = becoming } }
    {
        self.becomes = becoming;
    }
}
