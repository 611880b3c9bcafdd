//! A value with what is known of its depth, so that a look at its parts is spared.
#![tactic(auto)]

mod known;

pub use known::Known;
