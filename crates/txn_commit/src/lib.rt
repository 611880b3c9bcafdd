//! Whether a transaction may commit: whether what it has read at its snapshot has been written since.
#![tactic(auto)]

mod conflict;
mod validation;

pub use conflict::Conflict;
pub use validation::validate;
