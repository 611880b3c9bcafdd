//! Tests of values, names, printed texts and primitives, over the crates that have them.
#![tactic(auto)]

#[cfg(test)]
mod keys;
#[cfg(test)]
mod long;
#[cfg(test)]
mod maps;
#[cfg(test)]
mod names;
#[cfg(test)]
mod primitives;
#[cfg(test)]
mod texts;
#[cfg(test)]
mod values;
#[cfg(test)]
mod words;
