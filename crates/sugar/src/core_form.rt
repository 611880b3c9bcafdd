ghost use Rattle.std.specs.Prelude.{◌≡◌};
ghost use Rattle.sugar.specs.Meaning.{core_at};

use value_core::{Place, Seq, Text};

/// A core form, and the place of the form in the source that it stands for.
#[cycle(core)]
#[derive(Drop)]
pub struct Core {
    pub at: Place,
    pub kind: CoreKind,
}

/// What a core form is.
#[cycle(core)]
#[derive(Drop)]
pub enum CoreKind {
    Nil,
    Bool(bool),
    Int(i64),
    Str(Text),
    Kw(Text),
    Sym(Text),
    /// A made name, which no source can write.
    Fresh(u32),
    List(Cores),
    Vector(Cores),
    Map(Cores),
    /// A form that is no program's.
    Bad(BadKind),
}

/// Why a form is no program's: a number of parts that it does not take, or a part that cannot stand there.
#[derive(Clone, Copy, Debug, PartialEq, Eq)]
pub enum BadKind {
    Arity,
    BadForm,
}

/// The core forms of one list, vector or map, in their order.
pub type Cores = Seq<Core>;

/// The core forms of a source.
pub type Tops = Seq<Core>;

impl Core {
    /// The core form of this kind that stands for a form at this place.
    pub fn new(at: Place, kind: CoreKind) -> Self
        ensures { result ≡ core_at at kind }
    {
        Core { at, kind }
    }
}
