//! The messages that have arrived at an actor and wait there, definite or tentative.
#![tactic(auto)]

mod mailbox;
mod message;

pub use mailbox::Mailbox;
pub use message::Message;
