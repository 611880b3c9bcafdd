ghost use Rattle.std.specs.Prelude.{◌≡◌, ◌++◌, flat_map, OnOk};
ghost use Rattle.program_maker.specs.MadeText.{line_of};

use std::alloc::AllocError;
use value_core::Text;

/// Appends a line of these pieces.
pub(crate) fn push_line(text: &mut Text, pieces: &[&[u8]]) -> Result<(), AllocError>
    ensures { OnOk result (text.new ≡ text.old ++ line_of (flat_map (λ piece. piece.now) pieces.now)) }
{
    for piece in pieces {
        text.extend(piece)?;
    }
    text.extend(b"\n")
}
