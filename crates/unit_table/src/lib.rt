//! What the workers can claim, by name: units, tasks and actors, with their marks; which of them are ready, and which are lent.
#![tactic(auto)]

mod mark;
mod piece;
mod place;
mod places;
mod record;
mod unfinished;
mod unit;
mod units;
mod waking;

pub use mark::{Mark, WaitOn, Work};
pub use piece::{Actor, Piece};
pub use unit::{Becoming, Unit, UnitKind};
pub use units::Units;
