//! A machine that evaluates a body node by node, and stops at each request. It keeps what is still to be done on a stack
//! of its own, so that a deep recursion of the program takes memory and not the stack of the thread, and a call in tail
//! position leaves nothing there.
#![tactic(auto)]

mod context;
mod copies;
mod entering;
mod item;
mod machine;
mod parts;
mod resuming;
mod stack;
mod unread;
mod walk;

pub use machine::Machine;
