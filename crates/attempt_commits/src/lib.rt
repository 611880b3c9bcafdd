//! How an attempt commits: its unit goes on with its value, and what its effects do to refs, bytes, actors and mail is done.
#![tactic(auto)]

mod commits;
mod deeds;
mod doing;

pub use commits::commit;
