//! The units of a run by one thread, and the tasks of their transactions, which run to the end within one step.
#![tactic(auto)]

mod around;
mod own;
mod task;
mod tasks;
mod transaction;
mod unit;
mod units;

pub use around::Around;
pub use task::{Done, Task, TaskEnd};
pub use transaction::transact;
pub use unit::{Becoming, Unit};
pub use units::Units;
