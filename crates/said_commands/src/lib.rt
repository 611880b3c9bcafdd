//! The command that the parser of a command line found, with the values that it takes.
#![tactic(auto)]

mod command;
mod said;
mod words_no;

pub use command::Command;
pub use said::said_command;
pub use words_no::WordsNo;
