//! The program of top-level forms whose names are resolved, or the refusal that is due: a form that needs a global before
//! it is bound, or a table of too many nodes.
#![tactic(auto)]

mod apply;
mod chain;
mod emit;
mod emitter;
mod end_loop;
mod frame;
mod laws;
mod lower;
mod planning;
mod turn;

pub use laws::every_plan;
pub use plan_errors::{PlanKind, PlanNo};
pub use planning::plan;
