//! How what a turn holds that runs ahead of the history is settled, one effect at a time.
#![tactic(auto)]

mod beginning;
mod leaving;
mod requests;
mod sends;
mod settling;
mod waking;

pub use settling::settle_next;
