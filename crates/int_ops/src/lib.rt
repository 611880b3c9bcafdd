//! The arithmetic of the language: what a primitive over integers gives for its arguments, or the fault that it has there.
#![tactic(auto)]

mod ints;

pub use ints::{
    Division, Extreme, Order, Sign, chosen, difference, divided, increase, int_of, is_int, ordered,
    product, signed, sum,
};
