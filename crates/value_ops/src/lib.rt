//! The primitives of the language: their words, how many arguments each takes, and what each gives.
#![tactic(auto)]

mod entries;
mod kinds;
mod parts;
mod table;
mod words;

pub use table::{apply, apply_to_own};
pub use value_core::OpFault;
pub use words::{op_named, takes};
