//! That the world that the threads share goes on: while a run is not at rest something can be done. No code runs here.
#![tactic(auto)]

mod laws;

pub use laws::something_can_be_done;
