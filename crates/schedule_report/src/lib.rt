//! The report of what came of each line of a schedule.
#![tactic(auto)]

mod report;
mod told;

pub use report::push_report;
pub use told::Told;
