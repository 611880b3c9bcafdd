ghost use Rattle.std.specs.Prelude.{◌≡◌, IfOk};

use eval_step::Machine;
use serial_model::Halt;
use std::alloc::{AllocError, Global};
use unit_table::Work;
use value_core::Ticket;

/// The parts of a result: the claim's ticket, what it was claimed for, the machine, where the piece has one, and the halt
/// to which it was evaluated, where it was.
#[derive(Drop)]
pub struct Parts {
    pub ticket: Ticket,
    pub work: Work,
    pub machine: Option<Machine>,
    pub halt: Option<Halt>,
}

impl Parts {
    /// Equal parts.
    pub(crate) fn copy(&self, alloc: Global) -> Result<Self, AllocError>
        ensures { IfOk result (λ copied. copied ≡ self.now) }
    {
        Ok(Parts {
            ticket: self.ticket,
            work: self.work,
            machine: copy_machine(alloc, &self.machine)?,
            halt: copy_halt(alloc, &self.halt)?,
        })
    }
}

fn copy_machine(alloc: Global, machine: &Option<Machine>) -> Result<Option<Machine>, AllocError>
    ensures { IfOk result (λ copied. copied ≡ machine.now) }
{
    match machine {
        Some(machine) => Ok(Some(machine.copy(alloc)?)),
        None => Ok(None),
    }
}

fn copy_halt(alloc: Global, halt: &Option<Halt>) -> Result<Option<Halt>, AllocError>
    ensures { IfOk result (λ copied. copied ≡ halt.now) }
{
    match halt {
        Some(halt) => Ok(Some(halt.copy(alloc)?)),
        None => Ok(None),
    }
}
