//! Tests of the programs that are made.
#![tactic(auto)]

#[cfg(test)]
mod texts;
