//! The versions of refs: what a ref holds at a number, the commit that adds versions, and the prune that drops those that
//! no live number reads.
#![tactic(auto)]

mod live;
mod pruning;
mod store;
mod version;
mod versions;
mod writes;

pub use live::Live;
pub use store::Store;
pub use version::Version;
pub use writes::Writes;
