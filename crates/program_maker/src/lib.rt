//! Programs that are made from a number and a size: transfers of money between refs, drawn by chance.
#![tactic(auto)]

mod draws;
mod line;
mod program;
mod transfer;

pub use program::make;
