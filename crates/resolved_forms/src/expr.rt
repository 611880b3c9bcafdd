use crate::head::Head;
use value_core::{Place, Seq, Text};

/// An expression whose names are resolved, and its place in the source.
///
/// Each local has a level: how many locals are bound round it, from the outermost form of the top level inwards. A
/// function's parameters begin at level 0.
#[cycle(expr)]
#[derive(Drop)]
pub struct Expr {
    pub at: Place,
    pub kind: ExprKind,
}

/// What an expression is.
#[cycle(expr)]
#[derive(Drop)]
pub enum ExprKind {
    Nil,
    Bool(bool),
    Int(i64),
    Str(Text),
    Kw(Text),
    /// The local with that level.
    Local(u32),
    /// The global with that number.
    Global(u32),
    Apply(Head, Exprs),
    /// The expressions that are bound at the next levels, one after another, and last the body.
    Let(Exprs),
    /// Tests and results, by turns.
    Cond(Exprs),
    /// The parts, of which each but the last is bound without a name, the first one at that level.
    And(u32, Exprs),
    Or(u32, Exprs),
    /// The initial expressions, which are bound as those of a `Let`, and last the body of the loop's own function.
    Loop(Looping, Exprs),
}

/// The function of a loop.
#[derive(Drop)]
pub struct Looping {
    /// Its number in the program.
    pub number: u32,
    /// The level of its first parameter, which is that of the first initial expression too.
    pub base: u32,
    /// The levels of the locals that are its first arguments, one for each parameter.
    pub arguments: Seq<u32>,
}

pub type Exprs = Seq<Expr>;
