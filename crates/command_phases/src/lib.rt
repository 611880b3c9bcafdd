//! The phases of a command, below the commands: files are read and checked, what a run leaves is written, and each outcome
//! has its status, its detail and its line.
#![tactic(auto)]

mod ending;
mod ends;
mod fetch;
mod lines;
mod load;
mod load_pair;
mod outcome;
mod status;
mod telling;
mod without;

pub use ending::{Ran, end_run, say_differs, say_end};
pub use ends::is_same_end;
pub use lines::{end_line, say_usage};
pub use load::{LoadNo, load_program, program_in};
pub use load_pair::{Given, PairNo, Scheduled, load_replay, load_schedule};
pub use outcome::{Detail, Outcome, Part};
pub use status::{DIFFERS, DONE, FAULT, NO_MEMORY, NOT_READ, NOT_WRITTEN, REFUSED, SPENT, USAGE};
pub use telling::{tell_counts, tell_text};
pub use without::{out_of_memory, stopped_after, without_pair, without_program};
