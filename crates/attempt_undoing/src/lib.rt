//! How an attempt is undone with all that hangs on it: the turns that took messages which depend on it, their attempts, and what any of these
//! have sent.
#![tactic(auto)]

mod dropping;
mod hanging;
mod sends;
mod undoing;

pub use undoing::{Undone, undo_attempt, undo_claimed};
