//! Tests of turns that run ahead, and of what hangs on what.
#![tactic(auto)]

#[cfg(test)]
mod aheads;
#[cfg(test)]
mod links;
#[cfg(test)]
mod turns;
