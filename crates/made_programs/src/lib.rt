//! What is known of each program that is made.
#![tactic(auto)]

mod laws;

pub use laws::made_is_program;
