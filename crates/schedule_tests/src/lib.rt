//! Tests of schedules that drive a world: what each line reports, what is printed, and how the run ends.
#![tactic(auto)]

#[cfg(test)]
mod rows;
#[cfg(test)]
mod runs;
