//! Tests of histories, and of the answers and values of a machine.
#![tactic(auto)]

#[cfg(test)]
mod answers;
mod captured;
#[cfg(test)]
mod histories;
