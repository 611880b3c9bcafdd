//! The values with which a machine begins, in a form that is compared fast where they are used often: long vectors of things that one
//! unit or task made in a row are told by their runs.
#![tactic(auto)]

mod captured;
mod entry;
mod regular;

pub use captured::Captured;
