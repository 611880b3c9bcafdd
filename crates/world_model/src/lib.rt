//! The world that the threads share, as data: what it stands for, what each answer of it changes, and that each answer leaves
//! it standing for the replay of its history. All of it is in `specs/`; no code runs here.
#![tactic(auto)]

mod laws;

pub use laws::{gave_keeps, opening_stands};
