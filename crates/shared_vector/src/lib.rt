//! Vectors whose copies share what they hold.
#![tactic(auto)]

mod copied;
mod layer;
mod shared;
mod shared_vector;
mod vector_items;

pub use copied::Copied;
pub use shared::Shared;
pub use shared_vector::SharedVector;
pub use vector_items::VectorItems;
