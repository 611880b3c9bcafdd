//! The answers that a machine was given, in a form that is copied and compared fast: equal answers in a row, and things in
//! a row that one unit or task made, are kept once.
#![tactic(auto)]

mod answers;
mod lane;
mod lanes;
mod rest;
mod run;
mod sameness;

pub use answers::Answers;
