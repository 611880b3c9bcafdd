//! Tests of the tasks of an attempt.
#![tactic(auto)]

#[cfg(test)]
mod samples;
#[cfg(test)]
mod trees;
