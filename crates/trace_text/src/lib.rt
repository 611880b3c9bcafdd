//! The text of a trace: written, and read back.
#![tactic(auto)]

pub mod cut;
mod error;
mod laws;
mod line;
mod no;
mod parts;
mod read;
mod word;
mod write;

pub use error::TraceNo;
pub use laws::{every_text, one_trace, refused_once, text_or_refused};
pub use read::{TRACE_LIMIT, read_trace};
pub use write::{push_entry, push_line, write_trace};
