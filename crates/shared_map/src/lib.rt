//! Maps by name whose copies share what they hold.
#![tactic(auto)]

mod in_order;
mod node;
mod putting;
mod shared_map;
mod shared_names;

pub use shared_map::SharedMap;
pub use shared_names::SharedNames;
