ghost use Rattle.std.specs.Prelude.{◌≡◌};
ghost use Rattle.said_commands.specs.declared.words_no.WordsNo.TheVariants.{Memory};

use std::alloc::AllocError;
use thiserror::Error;

/// Why no command is read from the words.
#[derive(Clone, Copy, Debug, PartialEq, Eq, Error)]
pub enum WordsNo {
    /// The words are no command line.
    #[error("the words are no command")]
    Usage,
    /// There is no memory.
    #[error("out of memory")]
    Memory,
}

impl From<AllocError> for WordsNo {
    ghost from_gives = { λ _ refusal. refusal ≡ Memory };

    fn from(_error: AllocError) -> Self {
        WordsNo::Memory
    }
}
