ghost use Rattle.std.specs.Prelude.{◌≡◌};

use crate::stack::Stack;
use eval_frames::Frame;

/// The current frame, and what is still to be done with the value of the node that is evaluated in it.
#[derive(Drop)]
pub struct Context {
    pub frame: Frame,
    pub stack: Stack,
}
