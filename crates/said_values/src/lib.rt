//! The values that the words of a command line give to places and options: texts, numbers in their ranges, and limits.
#![tactic(auto)]

mod number;
mod values;

pub use values::{limits, made, text, workers};
