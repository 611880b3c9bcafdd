//! Tests of the lock round a value that only grows, and of the threads that append under it.
#![tactic(auto)]

#[cfg(test)]
mod appends;
#[cfg(test)]
mod seats;
