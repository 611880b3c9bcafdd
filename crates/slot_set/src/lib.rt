//! A set of slots that finds its least member by looking at a few words, and changes without taking memory.
#![tactic(auto)]

mod slot_set;
mod words;

pub use slot_set::SlotSet;
