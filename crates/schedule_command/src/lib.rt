//! The command `schedule`: a run by the lines of a schedule, with its report.
#![tactic(auto)]

mod schedule_command;

pub use schedule_command::schedule_file;
