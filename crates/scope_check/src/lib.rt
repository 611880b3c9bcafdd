//! From the forms of a source to its program, or to the first refusal.
#![tactic(auto)]

mod checking;
mod declared;
mod error;
mod laws;
mod lets;
mod lists;
mod resolver;
mod rule;
mod stand;
mod start;
mod tops;

pub use checking::check;
pub use error::ScopeNo;
pub use laws::{every_source, program_once, program_or_refused, reads_back, refused_once};
pub use scope_refusals::ScopeKind;
