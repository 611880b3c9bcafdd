//! Tests of workers that share a world, and of the bytes that go out while they work.
#![tactic(auto)]

#[cfg(test)]
mod gates;
#[cfg(test)]
mod live;
#[cfg(test)]
mod runs;
#[cfg(test)]
mod sharing;
#[cfg(test)]
mod sinks;
