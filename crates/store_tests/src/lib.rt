//! Tests of the versions of refs, of the writes of a transaction, of the log of a task on a snapshot, and of validation.
#![tactic(auto)]

#[cfg(test)]
mod forks;
#[cfg(test)]
mod snapshots;
#[cfg(test)]
mod validations;
#[cfg(test)]
mod versions;
#[cfg(test)]
mod writes;
