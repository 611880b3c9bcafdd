//! Tests of the pool of records, of the table of pieces, of the set of slots and of the slots that wait.
#![tactic(auto)]

#[cfg(test)]
mod pieces;
#[cfg(test)]
mod pools;
#[cfg(test)]
mod slot_sets;
#[cfg(test)]
mod waits;
