//! When a run of the world is over, and how one thread ends it.
#![tactic(auto)]

mod finishing;
mod over;

pub use finishing::finish;
pub use over::{end_by, is_over};
