//! What a worker takes out of the shared world, and what it gives back: a claim, and the result to which it was run.
#![tactic(auto)]

mod claim;
mod done;
mod parts;

pub use claim::Claim;
pub use done::Done;
pub use parts::Parts;
