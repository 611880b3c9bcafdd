//! A turn that runs ahead of what it depends on: it is answered without waiting, and what it does is held until it settles.
#![tactic(auto)]

mod ahead;
mod copies;
mod foretelling;
mod held;
mod held_effect;

pub use ahead::Ahead;
pub use foretelling::{count_made, foretell};
pub use held::Held;
pub use held_effect::HeldEffect;
