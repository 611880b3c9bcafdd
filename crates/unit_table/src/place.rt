ghost use Rattle.std.specs.Prelude.{◌≡◌, Some, IfOk};
ghost use Rattle.std.specs.Option.{option_map};
ghost use Rattle.unit_table.specs.Keeping.{IsMarkedAs};
ghost use Rattle.unit_table.specs.Piece.{becoming, moved, with_state};

use crate::mark::Mark;
use crate::piece::Piece;
use crate::record::Record;
use crate::unit::Becoming;
use eval_step::Machine;
use serial_model::ActorState;
use std::alloc::{AllocError, Global};
use std::boxed::Box;
use std::marker::Model;

/// A record behind a pointer, so that the half-full nodes of a map hold no room for records. It is seen as the record.
pub struct Place {
    kept: Box<Record>,
}

impl Model for Place {
    ghost use Rattle.unit_table.specs.declared.record.Record.{Record};
    ghost use Rattle.unit_table.specs.contracts.record.Record as record_row;

    ghost Value = { Record };

    ghost coded = { (record_row.the_row).coded };

    ghost view = { λ p. p.kept.value };
}

impl Drop for Place {
    fn drop(self) {
        let Place { kept: _kept } = self;
    }
}

impl Place {
    /// A place of that record, or no memory.
    pub(crate) fn new(alloc: Global, first: Record) -> Result<Self, AllocError>
        ensures { IfOk result (λ p. p ≡ first) }
    {
        match Box::new(alloc, first) {
            Ok(kept) => Ok(Place { kept }),
            Err(_) => Err(AllocError),
        }
    }

    /// The record in it.
    pub(crate) fn kept(&self) -> &Record
        ensures { result.now ≡ self.now }
    {
        &self.kept
    }

    pub(crate) fn put(&mut self, piece: Option<Piece>)
        ensures { self.new ≡ record self.old { piece = piece } }
    {
        self.kept.put(piece);
    }

    pub(crate) fn move_unit(&mut self, machine: Machine, made: u32)
        ensures { self.new ≡ record self.old { piece = option_map (moved machine made) self.old.piece } }
    {
        self.kept.move_unit(machine, made);
    }

    pub(crate) fn turn_into(&mut self, next: Option<Becoming>)
        ensures { self.new ≡ record self.old { piece = option_map (becoming next) self.old.piece } }
    {
        self.kept.turn_into(next);
    }

    pub(crate) fn set_actor(&mut self, state: ActorState)
        ensures { self.new ≡ record self.old { piece = option_map (with_state state) self.old.piece } }
    {
        self.kept.set_actor(state);
    }

    pub(crate) fn put_mark(&mut self, mark: Mark)
        ensures { IsMarkedAs mark self.old self.new }
    {
        self.kept.put_mark(mark);
    }
}
