ghost use Rattle.std.specs.Prelude.{◌≡◌};
ghost use Rattle.core_syntax.specs.declared.build_no.BuildNo.TheVariants.{Memory};

use std::alloc::AllocError;
use thiserror::Error;

/// Why a node is not taken into a table.
#[derive(Clone, Copy, Debug, PartialEq, Eq, Error)]
pub enum BuildNo {
    /// The table holds `NODE_LIMIT` nodes.
    #[error("too many nodes")]
    TooManyNodes,
    /// There is no memory.
    #[error("out of memory")]
    Memory,
}

impl From<AllocError> for BuildNo {
    ghost from_gives = { λ _ refusal. refusal ≡ Memory };

    fn from(_error: AllocError) -> Self {
        BuildNo::Memory
    }
}
