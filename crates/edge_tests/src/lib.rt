//! Tests of the files, sinks and standard output that the program reads and writes.
#![tactic(auto)]

#[cfg(test)]
mod files;
