//! How an actor of the world begins its turn.
#![tactic(auto)]

mod aheads;
mod turns;

pub use aheads::take_ahead;
pub use turns::give_actor;
