//! From the forms of a source to its core forms, with the shorthands written out.
#![tactic(auto)]

mod core_form;
mod expansion;
mod parts;
mod words;

pub use core_form::{BadKind, Core, CoreKind, Cores, Tops};
pub use expansion::expand;
pub use words::is_form_word;
