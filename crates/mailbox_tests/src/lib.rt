//! Tests of the messages that have arrived at an actor, and of the mail of several actors.
#![tactic(auto)]

#[cfg(test)]
mod mailboxes;
#[cfg(test)]
mod mails;
#[cfg(test)]
mod messages;
