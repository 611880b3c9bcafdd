ghost use Rattle.std.specs.Prelude.{◌≡◌, IfOk};
ghost use Rattle.serial_model.specs.Operation.{applied as applied_of};
ghost use Rattle.eval_frames.specs.Control.{standing};
ghost use Rattle.eval_frames.specs.Finish.{Acts, Comes, IsAct, finish};

use crate::at::At;
use crate::frame::Frame;
use crate::numbers::of_numbers;
use crate::operation::operate;
use crate::outcome::Outcome;
use crate::registers::Registers;
use core_syntax::Node;
use known_values::Known;
use std::alloc::{AllocError, Global};
use std::mem;
use value_core::{Code, Op, Place};
use value_ops::{OpFault, apply_to_own, takes};

/// Does the primitive with the values of the register, for the form at that place.
pub fn apply(alloc: Global, op: Op, at: Place, registers: &mut Registers) -> Result<At, AllocError>
    ensures { IfOk result (λ next. Acts (applied_of op registers.old.values) at (standing next registers.new)) }
{
    if let Some(value) = of_numbers(op, registers.values.values()) {
        registers.values.clear();
        registers.value = Known::unseen(value);
        return Ok(At::Deliver);
    }
    apply_any(alloc, op, at, registers)
}

// The same for all arguments.
fn apply_any(alloc: Global, op: Op, at: Place, registers: &mut Registers) -> Result<At, AllocError>
    ensures { IfOk result (λ next. Acts (applied_of op registers.old.values) at (standing next registers.new)) }
{
    let values = mem::replace(&mut registers.values, Frame::new(alloc));
    match applied(alloc, op, values) {
        Ok(value) => {
            registers.value = value;
            Ok(At::Deliver)
        }
        Err(OpFault::WrongType) => Ok(registers.fault(Code::WrongType, at)),
        Err(OpFault::DivideByZero) => Ok(registers.fault(Code::DivideByZero, at)),
        Err(OpFault::Overflow) => Ok(registers.fault(Code::Overflow, at)),
        Err(OpFault::Index) => Ok(registers.fault(Code::Index, at)),
        Err(OpFault::TooDeep) => Ok(registers.fault(Code::TooDeep, at)),
        Err(OpFault::Memory) => Err(AllocError),
    }
}

// What the primitive gives for these arguments.
fn applied(alloc: Global, op: Op, values: Frame) -> Result<Known, OpFault>
    ensures { Comes result (applied_of op values) }
{
    if !takes(op, values.values().len()) {
        return Err(OpFault::WrongType);
    }
    let first_is_shallow = values.first_is_shallow();
    match apply_to_own(alloc, op, values.into_values(), first_is_shallow) {
        Ok(value) => Ok(Known::new(value, true)),
        Err(fault) => Err(fault),
    }
}

/// Does what the node does in its frame with the values of the register. It is no primitive, no vector
/// and no call.
pub fn act(
    alloc: Global,
    node: &Node,
    at: Place,
    frame: &Frame,
    registers: &mut Registers,
) -> Result<At, AllocError>
    requires { IsAct node.now }
    ensures { IfOk result (λ next. Acts (finish frame.now node.now registers.old.values) at (standing next registers.new)) }
{
    let values = mem::replace(&mut registers.values, Frame::new(alloc));
    match operate(alloc, node, frame.values(), values.values())? {
        Outcome::Gives(value) => {
            registers.value = value;
            Ok(At::Deliver)
        }
        Outcome::Faults(code) => Ok(registers.fault(code, at)),
        Outcome::Asks(request) => Ok(registers.ask(request, at)),
    }
}
