//! Pieces of the world that are lent under a claim, and what they come to when they are given back.
#![tactic(auto)]

mod claims;
mod giving;
mod leading;

pub use claims::{abandon, claim_piece, copy_machine, work_in};
pub use giving::{give, give_to};
