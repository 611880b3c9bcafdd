//! The command `run`: workers share the world of a program.
#![tactic(auto)]

mod opening;
mod run_command;

pub use opening::opened;
pub use run_command::{run_file, run_program};
