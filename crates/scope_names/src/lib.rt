//! What words stand for: the words of forms and primitives, the shapes of top-level forms, the names that a file defines,
//! and, with the locals at a place, what a name is where it is used.
#![tactic(auto)]

mod definition;
mod found;
mod names;
mod reserved;
mod shape;
mod special;

pub use definition::{Definition, What};
pub use found::{Found, find};
pub use names::Names;
pub use reserved::{is_reserved, op_with};
pub use scope_locals::Locals;
pub use shape::{Reaction, Shape, shape_of};
pub use special::{Special, special_named};
