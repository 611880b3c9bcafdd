//! Where the evaluation of a body stands, with the values that are bound there, and what the operation of a node does with
//! the values of its arguments. It knows no stack: which node comes next is not decided here.
#![tactic(auto)]

mod acting;
mod arguments;
mod at;
mod frame;
mod leaf;
mod numbers;
mod operation;
mod outcome;
mod registers;
mod values;

pub use acting::{act, apply};
pub use arguments::{argument, push_hidden};
pub use at::At;
pub use frame::Frame;
pub use known_values::Known;
pub use leaf::push_leaf;
pub use registers::{Registers, Stop};
pub use values::is_false;
