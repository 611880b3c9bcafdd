//! Tests of the vectors whose copies share what they hold.
#![tactic(auto)]

#[cfg(test)]
mod copies;
