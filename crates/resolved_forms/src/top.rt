use crate::expr::Expr;
use value_core::{Place, Seq};

/// A top-level form whose names are resolved, and its place.
#[derive(Drop)]
pub struct Top {
    pub at: Place,
    pub kind: TopKind,
}

/// What a top-level form is.
#[derive(Drop)]
pub enum TopKind {
    /// Main evaluates the expression and binds the value as the next global.
    Global(Expr),
    /// Main evaluates the expression and drops the value.
    Value(Expr),
    /// The next function, with so many parameters.
    Function(u32, Expr),
    /// The next behaviour.
    Behaviour(Reacting, Expr),
}

/// The head of a behaviour: the place of its `(behavior` form, and how many state and message parameters it has.
#[derive(Clone, Copy, Debug, PartialEq, Eq)]
pub struct Reacting {
    pub at: Place,
    pub state: u32,
    pub message: u32,
}

pub type TopForms = Seq<Top>;
