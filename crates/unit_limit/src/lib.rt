//! Whether the limit of units is reached.
#![tactic(auto)]

mod spent;

pub use spent::are_units_spent;
