//! The locals that are bound at a place, found by name.
#![tactic(auto)]

mod locals;

pub use locals::Locals;
