//! The names with which an attempt begins.
#![tactic(auto)]

mod trying;

pub use trying::{Trying, trying_names};
