//! Tests of the table of units, tasks and actors, and of claims.
#![tactic(auto)]

#[cfg(test)]
mod claims;
#[cfg(test)]
mod units;
