//! Tests of what reads a source: its text, and the table of nodes.
#![tactic(auto)]

#[cfg(test)]
mod tables;
#[cfg(test)]
mod texts;
