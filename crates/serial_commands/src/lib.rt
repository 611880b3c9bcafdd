//! The commands that need no shared world: `check`, `make`, and `replay`, which one thread does entry by entry.
#![tactic(auto)]

mod check_command;
mod make_command;
mod outside;
mod replay;
mod replay_command;

pub use check_command::check_file;
pub use make_command::make_program;
pub use outside::Outside;
pub use replay_command::replay_file;
