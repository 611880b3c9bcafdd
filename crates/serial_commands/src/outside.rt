use world_io::{Files, Sink};

/// The files and the two sinks that a command works on.
#[derive(Drop)]
pub struct Outside<'a, F: Files, K: Sink, E: Sink> {
    pub files: &'a mut F,
    pub out: &'a mut K,
    pub err: &'a mut E,
}
