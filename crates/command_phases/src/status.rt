//! The exit statuses of the program. The table at `chocola` says when each comes.

/// The command came to its end, and what it ran is done.
pub const DONE: u8 = 0;

/// What it ran ended in a fault.
pub const FAULT: u8 = 1;

/// The words are no command.
pub const USAGE: u8 = 2;

/// A file was not read.
pub const NOT_READ: u8 = 3;

/// What was read is refused.
pub const REFUSED: u8 = 4;

/// What it ran spent its budget.
pub const SPENT: u8 = 5;

/// There was no memory.
pub const NO_MEMORY: u8 = 6;

/// Something was not written.
pub const NOT_WRITTEN: u8 = 7;

/// The replay differs from its trace.
pub const DIFFERS: u8 = 8;
