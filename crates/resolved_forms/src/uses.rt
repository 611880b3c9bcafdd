ghost use Rattle.std.specs.Prelude.{◌≡◌};
ghost use Rattle.resolved_forms.specs.Uses.{no_uses};

use std::alloc::Global;
use value_core::Seq;

/// What a piece of code names: globals, and units of code by calls, spawns and becomes. Both stand in the order of the
/// code, as often as they are named.
///
/// The units are numbered: the behaviours come first, then the functions of the top level, then those of loops.
#[derive(Drop)]
pub struct Uses {
    pub globals: Seq<u32>,
    pub units: Seq<u32>,
}

impl Uses {
    /// Those of code that names nothing. It takes no memory.
    pub fn none(alloc: Global) -> Self
        ensures { result ≡ no_uses }
    {
        Uses {
            globals: Seq::new(alloc),
            units: Seq::new(alloc),
        }
    }
}
