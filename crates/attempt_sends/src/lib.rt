//! What the root of an attempt sends by a step of a task is put into the mail of its receiver at once, or kept.
#![tactic(auto)]

mod letters;
mod putting;

pub use putting::post_sends;
