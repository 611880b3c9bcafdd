use crate::group::Group;
use value_core::{Place, Text};

/// A form without parts.
#[derive(Drop)]
pub enum Atom {
    Nil,
    Bool(bool),
    Int(i64),
    Str(Text),
    Kw(Text),
    Sym(Text),
}

/// A token, and the place where its text begins.
#[derive(Drop)]
pub struct Token {
    pub at: Place,
    pub kind: TokenKind,
}

/// What a token is.
#[derive(Drop)]
pub enum TokenKind {
    /// An opening bracket or `@`.
    Open(Group),
    /// A closing bracket.
    Close(Group),
    Atom(Atom),
}
