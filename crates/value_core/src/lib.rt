//! The values that every other crate speaks of: lists and texts, keys, maps and the tree of values, names of units,
//! places in a source, fault codes and primitives. The definitions of printed texts and of what each primitive gives stand
//! here too, with their laws.
#![tactic(auto)]

mod code;
mod copied;
mod dict;
mod few;
mod key;
pub mod lists;
mod name;
pub mod name_map;
mod name_order;
pub mod name_set;
mod numbers;
mod op;
mod op_fault;
mod pair;
mod place;
mod places;
mod reserved;
mod seq;
mod style;
mod text;
pub mod text_writing;
mod ticket;
mod value;

pub use code::Code;
pub use dict::{Dict, Pairs};
pub use key::Key;
pub use name::{Name, NameNo};
pub use op::Op;
pub use op_fault::OpFault;
pub use pair::Pair;
pub use place::Place;
pub use places::Places;
pub use reserved::Reserved;
pub use seq::Seq;
pub use shared_vector::{Copied, Shared, SharedVector};
pub use style::Style;
pub use text::Text;
pub use ticket::Ticket;
pub use value::{KeyNo, Value, Values};
