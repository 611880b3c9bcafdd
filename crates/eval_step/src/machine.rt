ghost use Rattle.std.specs.Prelude.{◌≡◌, ◌↔◌, ◌<◌, [], ◌∷◌, ◌++◌, length, IsTrue, IsErr, IfOk, OnOk, OnErr};
ghost use Rattle.core_syntax.specs.Table.{Table};
ghost use Rattle.serial_model.specs.Eval.{next};
ghost use Rattle.eval_step.specs.Evaluation.{IsAsk, IsAsking, IsFailed, IsOf, IsSame, IsSameTask};
ghost use Rattle.eval_step.specs.Parts.{evaluation_of};

use crate::context::Context;
use crate::copies::keep_answer;
use crate::parts::{Parts, copy_parts, same_parts};
use crate::stack::Stack;
use crate::walk::Walk;
use answer_runs::Answers;
use captured_values::Captured;
use core_syntax::{NodeId, Program};
use eval_frames::{At, Frame, Registers};
use serial_model::{Answer, Halt};
use std::alloc::{AllocError, Global};
use std::marker::Model;
use value_core::Values;

/// An evaluation that goes on from request to request. It is a pointer, since machines are handed on often.
pub struct Machine {
    parts: Box<Parts>,
}

impl Model for Machine {
    ghost use Rattle.eval_step.specs.Evaluation.{Evaluation, evaluation_code};
    ghost use Rattle.eval_step.specs.Parts.{evaluation_of};

    ghost Value = { Evaluation };

    ghost coded = { evaluation_code };

    ghost view = { λ m. evaluation_of m.parts.value };
}

/// By hand, so that a machine is dropped by a call: a derived drop is done part by part wherever a machine is dropped, and the borrow
/// checker's part of the proof there has a case for each.
impl Drop for Machine {
    fn drop(self) {
        let Machine { parts: _parts } = self;
    }
}

impl Machine {
    // The machine of these parts.
    fn of(alloc: Global, parts: Parts) -> Result<Self, AllocError>
        ensures { IfOk result (λ machine. machine ≡ evaluation_of parts) }
    {
        match Box::new(alloc, parts) {
            Ok(parts) => Ok(Machine { parts }),
            Err(_refused) => Err(AllocError),
        }
    }

    /// A machine that is to evaluate the body in a frame of these values, in or outside a transaction, and enters at most
    /// so many nodes. It has no answers yet.
    pub fn start(
        alloc: Global,
        body: NodeId,
        values: Values,
        in_transaction: bool,
        fuel: u64,
    ) -> Result<Self, AllocError>
        ensures body { IfOk result (λ machine. machine.body ≡ body) }
        ensures values { IfOk result (λ machine. machine.values ≡ values) }
        ensures inside { IfOk result (λ machine. machine.inside ≡ in_transaction) }
        ensures fuel { IfOk result (λ machine. machine.fuel ≡ fuel) }
        ensures answers { IfOk result (λ machine. machine.answers ≡ []) }
        ensures stands { IfOk result (λ machine. (table : Table) → body.index < length table.nodes → IsOf table machine) }
    {
        let frame = Frame::copied(alloc, &values)?;
        let context = Context {
            frame,
            stack: Stack::new(alloc),
        };
        let machine = Machine::of(
            alloc,
            Parts {
                body,
                values: Captured::of(values),
                inside: in_transaction,
                fuel,
                answers: Answers::new(alloc),
                inner: Walk {
                    at: At::Begin(body),
                    registers: Registers::new(alloc),
                    context,
                    left: fuel,
                },
            },
        )?;
        Ok(machine)
    }

    /// A machine that is to evaluate the same in the same frame, and has no answers yet. It fails for want of memory, and
    /// where the program has no such body.
    pub fn again(&self, alloc: Global, program: &Program) -> Result<Self, AllocError>
        ensures same { IfOk result (IsSameTask self.now) }
        ensures answers { IfOk result (λ machine. machine.answers ≡ []) }
        ensures stands { IfOk result (IsOf program.now) }
    {
        if program.main().index < self.parts.body.index {
            return Err(AllocError);
        }
        Machine::start(
            alloc,
            self.parts.body,
            self.parts.values.values().copy()?,
            self.parts.inside,
            self.parts.fuel,
        )
    }

    /// Goes on to where the body stops after the answers so far, and says where that is. A machine that asks and is run
    /// again gives the same request again. For want of memory it has failed, and every later call finds no memory.
    pub fn run_to_ask(&mut self, alloc: Global, program: &Program) -> Result<Halt, AllocError>
        requires { IsOf program.now self.old }
        ensures halt { IfOk result (λ halt. halt ≡
            next program.now self.old.body self.old.values self.old.inside self.old.answers self.old.fuel) }
        ensures kept { IsSame self.old self.new }
        ensures stands { IsOf program.now self.new }
        ensures asks { IfOk result (λ halt. IsAsk halt → IsAsking self.new) }
        ensures failed { OnErr result (IsFailed self.new) }
        ensures stays_failed { IsFailed self.old → IsErr result }
    {
        let inside = self.parts.inside;
        self.parts.inner.run(alloc, program, inside)
    }

    /// Gives the answer to the request at which the machine stands. For want of memory it has failed, and every later
    /// call finds no memory.
    pub fn answer(&mut self, alloc: Global, answer: Answer) -> Result<(), AllocError>
        requires { IsAsking self.old }
        ensures kept { IsSameTask self.old self.new }
        ensures answered { OnOk result (self.new.answers ≡ self.old.answers ++ answer ∷ []) }
        ensures unanswered { OnErr result (self.new.answers ≡ self.old.answers) }
        ensures stands { (table : Table) → IsOf table self.old → IsOf table self.new }
        ensures failed { OnErr result (IsFailed self.new) }
    {
        match keep_answer(alloc, &mut self.parts.answers, &answer) {
            Ok(()) => {
                self.parts.values.note_use(alloc);
                self.parts.inner.go_on(answer);
                Ok(())
            }
            Err(error) => {
                self.parts.inner.fail();
                Err(error)
            }
        }
    }

    /// An equal machine. Of a failed one there is none.
    pub fn copy(&self, alloc: Global) -> Result<Machine, AllocError>
        ensures copied { IfOk result (λ machine. machine ≡ self.now) }
        ensures failed { IsFailed self.now → IsErr result }
    {
        let machine = Machine::of(alloc, copy_parts(alloc, &self.parts)?)?;
        Ok(machine)
    }

    /// Whether the two evaluate the same body in the same frame, in or outside a transaction, with the same fuel, and have
    /// been given the same answers. It takes no memory.
    pub fn same(&self, other: &Machine) -> bool
        ensures { IsTrue result ↔ IsSame self.now other.now }
    {
        same_parts(&self.parts, &other.parts)
    }
}
