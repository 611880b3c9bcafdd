//! The mail of each actor, by the actor's name.
#![tactic(auto)]

mod mails;

pub use mails::Mails;
