use value_core::{Place, Seq, Text};

/// A form and the place where its text begins.
#[cycle(form)]
#[derive(Drop)]
pub struct Form {
    pub at: Place,
    pub kind: FormKind,
}

/// What a form is.
#[cycle(form)]
#[derive(Drop)]
pub enum FormKind {
    Nil,
    Bool(bool),
    Int(i64),
    Str(Text),
    Kw(Text),
    Sym(Text),
    List(Forms),
    Vector(Forms),
    Map(Forms),
    /// `@` and the one form after it.
    At(Forms),
}

/// The forms of a source, or of one list, vector or map, in their order.
pub type Forms = Seq<Form>;
