//! Lists and stacks whose copies share what they hold.
#![tactic(auto)]

mod chain;
mod chunk;
mod stack;

pub use chain::{Chain, Link};
pub use stack::SharedStack;
