//! Which tickets hang on which, and what has to go where one of them is undone.
#![tactic(auto)]

mod gathering;
mod link;
mod links;

pub use link::Link;
pub use links::{Links, Tickets};
