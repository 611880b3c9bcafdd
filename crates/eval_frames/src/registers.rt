ghost use Rattle.std.specs.Prelude.{◌≡◌, [], ◌∷◌, ◌++◌, OnOk};
ghost use Rattle.eval_frames.specs.Answered.{answered, halt_answered};
ghost use Rattle.serial_model.specs.declared.halt.Halt.TheVariants.{Ask, Fault, Spent, Value};
ghost use Rattle.value_core.specs.declared.value.Value.TheVariants.{Nil};
ghost use Rattle.eval_frames.specs.Control.{Halted, standing};

use crate::at::At;
use crate::frame::Frame;
use known_values::Known;
use serial_model::{Answer, Halt, Request};
use std::alloc::{AllocError, Global};
use std::mem;
use value_core::{Code, Place};

/// What belongs to where a machine stands. A register that does not belong to it says nothing.
#[derive(Drop)]
pub struct Registers {
    /// The value of the node behind which it stands.
    pub value: Known,
    /// The values before the argument that comes next, the hidden ones first.
    pub values: Frame,
    /// Where it stops.
    pub stop: Stop,
}

/// Where a machine stops.
pub struct Stop {
    pub halt: Halt,
}

/// By hand, so that a stop is dropped by a call: a derived drop has a case for each kind wherever one is overwritten.
impl Drop for Stop {
    fn drop(self) {
        let Stop { halt: _halt } = self;
    }
}

impl Registers {
    /// Registers that say nothing. They take no memory.
    pub fn new(alloc: Global) -> Self {
        Registers {
            value: Known::nil(),
            values: Frame::new(alloc),
            stop: Stop { halt: Halt::Spent },
        }
    }

    /// Stops at a fault of the form at that place.
    pub fn fault(&mut self, code: Code, at: Place) -> At
        ensures { standing result self.new ≡ Halted (Fault code at) }
    {
        self.stop = Stop {
            halt: Halt::Fault(code, at),
        };
        At::Halted
    }

    /// Stops at a request, which the form at that place makes.
    pub fn ask(&mut self, request: Request, at: Place) -> At
        ensures { standing result self.new ≡ Halted (Ask request at) }
    {
        self.stop = Stop {
            halt: Halt::Ask(request, at),
        };
        At::Halted
    }

    /// Stops for want of fuel.
    pub fn spend(&mut self) -> At
        ensures { standing result self.new ≡ Halted Spent }
    {
        self.stop = Stop { halt: Halt::Spent };
        At::Halted
    }

    /// Stops at the value. The room for arguments is given back, as no machine goes on from there.
    pub fn finish(&mut self) -> At
        ensures { standing result self.new ≡ Halted (Value self.old.value) }
    {
        let value = mem::replace(&mut self.value, Known::nil());
        self.values.free();
        self.stop = Stop {
            halt: Halt::Value(value.into_value()),
        };
        At::Halted
    }

    /// Takes the value as the last one of these.
    pub fn add_to(&mut self, values: Frame) -> Result<(), AllocError>
        ensures { OnOk result (self.new.values ≡ values ++ self.old.value ∷ []) }
    {
        self.values = values;
        self.values
            .push(mem::replace(&mut self.value, Known::nil()))
    }

    /// Lets the value go.
    pub fn forget(&mut self)
        ensures { self.new ≡ record self.old { value = Nil } }
    {
        self.value = Known::nil();
    }

    /// Where a machine that stood there stands once its request has that answer.
    pub fn answered(&mut self, at: At, answer: Answer) -> At
        ensures { standing result self.new ≡ answered (standing at self.old) answer }
    {
        match at {
            At::Halted => self.halt_answered(answer),
            goes_on => {
                drop(answer);
                goes_on
            }
        }
    }

    // Where a machine that has stopped stands once its request has that answer.
    fn halt_answered(&mut self, answer: Answer) -> At
        ensures { standing result self.new ≡ halt_answered self.old.stop.halt answer }
    {
        let Halt::Ask(_, at) = &self.stop.halt else {
            drop(answer);
            return At::Halted;
        };
        let at = *at;
        match answer {
            Answer::Value(value) => {
                self.value = Known::unseen(value);
                self.stop = Stop { halt: Halt::Spent };
                At::Deliver
            }
            Answer::Fault(code) => {
                self.stop = Stop {
                    halt: Halt::Fault(code, at),
                };
                At::Halted
            }
        }
    }
}
