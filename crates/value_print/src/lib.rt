//! Values as texts: the line that `println` prints, the string that `str` makes, and the text from which a value can be
//! read again.
#![tactic(auto)]

mod print;

pub use print::{print_line, readable, str_of};
