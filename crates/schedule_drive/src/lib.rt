//! A world that is driven by the lines of a schedule, and the report of what came of each.
#![tactic(auto)]

mod driving;
mod kept;
mod laws;
mod lines;

pub use driving::drive;
pub use laws::drive_appends;
pub use schedule_report::Told;
