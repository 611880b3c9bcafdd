ghost use Rattle.std.specs.Prelude.{◌≡◌, IfOk};
ghost use Rattle.std.specs.Arc.{arc_value};
ghost use Rattle.world_claim.specs.Run.{IsRunOf, parts_of, returned_of};

use crate::parts::Parts;
use core_syntax::Program;
use std::alloc::{AllocError, Global};
use std::marker::Model;
use std::sync::Arc;
use unit_table::Work;
use value_core::Ticket;

/// What comes of a claim: its ticket, what it was claimed for, the machine as it went on, and the halt to which it was
/// evaluated.
#[derive(Drop)]
pub struct Done {
    program: Arc<Program>,
    parts: Parts,
}

impl Model for Done {
    ghost use Rattle.std.specs.Arc.{arc_value};
    ghost use Rattle.shared_world.specs.Returned.{Returned, returned_code};
    ghost use Rattle.world_claim.specs.Run.{IsRunOf, returned_of};

    ghost Value = { Returned };

    ghost coded = { returned_code };

    ghost view = { λ d. returned_of (arc_value d.program) d.parts };

    ghost invariant = { λ d. IsRunOf (returned_of (arc_value d.program) d.parts) };
}

impl Done {
    /// The result of these parts, of a claim of that program.
    pub(crate) fn new(program: Arc<Program>, parts: Parts) -> Self
        requires { IsRunOf (returned_of (arc_value program) parts) }
        ensures { result ≡ returned_of (arc_value program) parts }
    {
        Done { program, parts }
    }

    /// An equal result.
    pub fn copy(&self, alloc: Global) -> Result<Done, AllocError>
        ensures { IfOk result (λ copied. copied ≡ self.now) }
    {
        let program = self.program.clone()?;
        Ok(Done::new(program, self.parts.copy(alloc)?))
    }

    /// The claim's ticket.
    pub fn ticket(&self) -> Ticket
        ensures { result ≡ self.now.ticket }
    {
        self.parts.ticket
    }

    /// What the piece was claimed for.
    pub fn work(&self) -> Work
        ensures { result ≡ self.now.work }
    {
        self.parts.work
    }

    /// The program of the world that lent the claim.
    pub fn program(&self) -> &Program
        ensures { result.now ≡ self.now.program }
    {
        &self.program
    }

    /// Its parts. A machine that is there is one of the program; it was evaluated exactly where it was claimed for that,
    /// and asks where it halted at a request.
    pub fn into_parts(self) -> Parts
        ensures parts { result ≡ parts_of self }
        ensures run { IsRunOf self }
    {
        self.parts
    }
}
