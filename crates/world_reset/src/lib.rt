//! How what the world keeps goes back to where the history left it: no attempt is left, no request is held, and no turn is begun ahead.
#![tactic(auto)]

mod back;
mod left;
mod plan;
mod putting;
mod resetting;

pub use plan::next_piece;
pub use resetting::reset;
