//! A turn that runs ahead of the history, as the world keeps it: the effects that it holds, and where the history left it.
#![tactic(auto)]

mod next_held;
mod turn_ahead;

pub use next_held::NextHeld;
pub use turn_ahead::{Left, TurnAhead, next_becomes};
