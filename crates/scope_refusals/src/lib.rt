//! What a refusal of the scope is, and which of several is told.
#![tactic(auto)]

mod choosing;
mod kind;
mod refusal;

pub use choosing::first;
pub use kind::ScopeKind;
pub use refusal::{Refusal, Refusals};
