//! The text of a schedule, read.
#![tactic(auto)]

mod error;
mod laws;
mod line;
mod read;

pub use error::LineNo;
pub use laws::{every_schedule, one_schedule, schedule_or_refused, schedule_refused_once};
pub use line::{Line, Lines};
pub use read::{SCHEDULE_LIMIT, read_schedule};
