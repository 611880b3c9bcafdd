//! From the bytes of a source to its forms.
#![tactic(auto)]

mod error;
mod form;
mod frame;
mod group;
mod integer;
mod laws;
mod lead;
mod lexer;
mod nest;
mod reader;
mod source;
mod spelling;
mod token;

pub use error::{ReadKind, ReadNo};
pub use form::{Form, FormKind, Forms};
pub use laws::{every_text, refused_once, spelled_again, spelled_once, spelled_or_refused};
pub use nest::NEST_LIMIT;
pub use source::{SOURCE_LIMIT, read};
pub use spelling::spell;
