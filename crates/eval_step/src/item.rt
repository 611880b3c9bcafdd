use core_syntax::NodeId;
use eval_frames::Frame;

/// What is still to be done with a value, in the current frame.
#[derive(Drop)]
pub enum Item {
    /// The value goes on in that frame.
    Back(Frame),
    /// The value goes on in the frame without so many of its last values.
    Shrink(usize),
    /// It is an argument of the node, and so are these values before it, the hidden ones first. The argument with that
    /// number comes next.
    Arguments(NodeId, Frame, usize),
    /// It is the condition of an if with these branches.
    Choose(NodeId, NodeId),
    /// The part of the do with that number comes next.
    Do(NodeId, usize),
    /// It is bound by the let, whose expression with that number comes next.
    Let(NodeId, usize),
    /// It is bound if that is so, and the step of main with that number comes next.
    Steps(NodeId, usize, bool),
}
