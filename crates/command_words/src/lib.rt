//! The words of a command line: which command they say, of which files and within which limits.
#![tactic(auto)]

mod parser;
mod words;

pub use said_commands::{Command, WordsNo};
pub use words::read_words;
