//! The run of a world that workers share: its bytes go out while they work, and the rest of them at its end.
#![tactic(auto)]

mod ending;
mod live;
mod run;
mod sharing;

pub use ending::Ended;
pub use run::{SharedRun, run_shared};
