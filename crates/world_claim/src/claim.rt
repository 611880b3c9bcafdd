ghost use Rattle.std.specs.Prelude.{◌≡◌, IfErr, IfOk};
ghost use Rattle.std.specs.Arc.{arc_value};
ghost use Rattle.world_claim.specs.Lent.{IsMachineOf};
ghost use Rattle.shared_world.specs.Returned.{IsSameMachine};
ghost use Rattle.world_claim.specs.Run.{AsksWhereHalted, IsDoneOf, halts_of};

use crate::done::Done;
use crate::parts::Parts;
use core_syntax::Program;
use eval_step::Machine;
use serial_model::Halt;
use std::alloc::{AllocError, Global};
use std::marker::Model;
use std::sync::Arc;
use unit_table::Work;
use value_core::{Name, Ticket};

/// A claim on a piece: what it was claimed for, and the machine that is lent, where the piece has one. An actor has none.
#[derive(Drop)]
pub struct Claim {
    program: Arc<Program>,
    piece: Name,
    ticket: Ticket,
    work: Work,
    machine: Option<Machine>,
}

impl Model for Claim {
    ghost use Rattle.std.specs.Arc.{arc_value};
    ghost use Rattle.world_claim.specs.Lent.{IsMachineOf, Lent, lent_code};

    ghost Value = { Lent };

    ghost coded = { lent_code };

    ghost view = { λ c. record {
      program = arc_value c.program;
      piece = c.piece;
      ticket = c.ticket;
      work = c.work;
      machine = c.machine;
    } };

    ghost invariant = { λ c. IsMachineOf (arc_value c.program) c.machine };
}

impl Claim {
    /// The claim of that ticket on the piece, for that work, in a world of that program. The machine is lent with it.
    pub fn new(
        program: Arc<Program>,
        piece: Name,
        ticket: Ticket,
        work: Work,
        machine: Option<Machine>,
    ) -> Self
        requires { IsMachineOf (arc_value program) machine }
        ensures { result ≡ record { program = arc_value program; piece = piece; ticket = ticket; work = work; machine = machine } }
    {
        Claim {
            program,
            piece,
            ticket,
            work,
            machine,
        }
    }

    /// The claimed piece.
    pub fn piece(&self) -> &Name
        ensures { result.now ≡ self.now.piece }
    {
        &self.piece
    }

    /// The claim's ticket.
    pub fn ticket(&self) -> Ticket
        ensures { result ≡ self.now.ticket }
    {
        self.ticket
    }

    /// What the piece was claimed for.
    pub fn work(&self) -> Work
        ensures { result ≡ self.now.work }
    {
        self.work
    }

    /// Evaluates to the next request, where the piece was claimed for that; else it does nothing. The program is the one of
    /// the world that lends the claim. For want of memory it hands the ticket back.
    pub fn run(self, alloc: Global, program: &Program) -> Result<Done, Ticket>
        requires { program.now ≡ self.program }
        ensures done { IfOk result (IsDoneOf self) }
        ensures back { IfErr result (λ ticket. ticket ≡ self.ticket) }
    {
        let Claim {
            program: lender,
            ticket,
            work,
            mut machine,
            ..
        } = self;
        match evaluate(alloc, program, work, &mut machine) {
            Ok(halt) => {
                let parts = Parts {
                    ticket,
                    work,
                    machine,
                    halt,
                };
                Ok(Done::new(lender, parts))
            }
            Err(_) => Err(ticket),
        }
    }
}

/// Evaluates the machine to its next request, where it is there and claimed for that, and says where it stops.
fn evaluate(
    alloc: Global,
    program: &Program,
    work: Work,
    machine: &mut Option<Machine>,
) -> Result<Option<Halt>, AllocError>
    requires { IsMachineOf program.now machine.old }
    ensures same { IsSameMachine machine.old machine.new }
    ensures stands { IsMachineOf program.now machine.new }
    ensures halts { IfOk result (λ halts. halts ≡ halts_of work program.now machine.old) }
    ensures asks { IfOk result (AsksWhereHalted machine.new) }
{
    match (work, machine) {
        (Work::Eval, Some(machine)) => {
            let halt = machine.run_to_ask(alloc, program)?;
            Ok(Some(halt))
        }
        _ => Ok(None),
    }
}
