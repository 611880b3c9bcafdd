//! A pool of records: each lies in a slot under a ticket, which is given out once. Free slots are used again.
#![tactic(auto)]

mod pool;
mod slot;

pub use pool::Pool;
