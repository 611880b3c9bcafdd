//! Messages that are settled where they are: in the mail, or with the turn that took one.
#![tactic(auto)]

mod mail;
mod turns;

pub use mail::settle_in;
pub use turns::{begun_turn, make_definite, settle_now, was_taken};
