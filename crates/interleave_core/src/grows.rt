use crate::world::World;
use core_syntax::Program;
use serial_model::{Entry, Limits};
use world_lock::Grows;

// A world goes on under a lock: the program and the limits stay, and the history only gets longer.
impl Grows for World {
    type Setup = (Program, Limits);

    type Item = Entry;

    ghost setup = { λ w. (w.setup.program, w.setup.limits) };

    ghost history = { λ w. w.history };
}
