//! Why resolved forms have no program: what is wrong with them, and where, or want of memory.
#![tactic(auto)]

mod error;

pub use error::{PlanKind, PlanNo, plan_no, refused};
