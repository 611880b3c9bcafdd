//! Forms that need a global before it is bound: the first of them among the forms that main evaluates.
#![tactic(auto)]

mod early;

pub use early::first_early;
