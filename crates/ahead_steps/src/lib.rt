//! What a turn that runs ahead of the history comes to when it goes on: it holds one effect more, it waits, or it begins an attempt.
#![tactic(auto)]

mod going;
mod holding;
mod leads;
mod sending;
mod trying;
mod waiting;

pub use going::go_ahead;
pub use leads::check_definite;
