//! Tests of the maps by name whose copies share what they hold, and of those whose places are made first.
#![tactic(auto)]

#[cfg(test)]
mod maps;
#[cfg(test)]
mod places;
