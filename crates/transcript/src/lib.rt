//! The bytes of a run go out: while it runs, and at its end.
#![tactic(auto)]

mod behind;
mod counted;
mod live;
mod out;

pub use live::{LiveNo, LiveStep, write_live};
pub use out::{write_out, write_rest};
