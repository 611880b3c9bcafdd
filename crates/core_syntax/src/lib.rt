//! The table of nodes of a program, and the builder that makes it.
#![tactic(auto)]

mod behaviour;
mod build_no;
mod builder;
mod function;
mod node;
mod node_id;
mod number;
mod program;
mod row;
mod step;

pub use behaviour::{Behaviour, Behaviours};
pub use build_no::BuildNo;
pub use builder::{Builder, NODE_LIMIT};
pub use function::{Function, Functions};
pub use node::{Locals, Node};
pub use node_id::{NodeId, NodeIds};
pub use number::{as_number, sum_of};
pub use program::Program;
pub use step::{Step, Steps};
