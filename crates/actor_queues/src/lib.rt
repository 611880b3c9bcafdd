//! The messages that wait for actors, in the order of each sender, and the first of them.
#![tactic(auto)]

mod mail;
mod queues;

pub use queues::Queues;
