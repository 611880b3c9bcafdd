//! A run by one thread, entry by entry.
#![tactic(auto)]

mod changes;
mod commit;
mod error;
mod first;
mod now;
mod requests;
mod run;
mod serial;
mod take;

pub use error::SerialNo;
pub use serial::Serial;
