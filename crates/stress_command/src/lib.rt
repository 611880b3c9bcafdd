//! The command `stress`: the run of a program that is made from two numbers.
#![tactic(auto)]

mod stress_command;

pub use stress_command::stress_program;
