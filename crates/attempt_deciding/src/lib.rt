//! What comes of an attempt whose root is at its end, and how one is undone.
#![tactic(auto)]

mod deciding;
mod undoing;

pub use deciding::{decide, to_undo};
pub use undoing::{abort, abort_claimed};
