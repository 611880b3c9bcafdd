ghost use Rattle.std.specs.Prelude.{◌≡◌, true, false, [], ◌∷◌, ◌++◌, IfOk, IsSomeAnd};
ghost use Rattle.value_core.specs.declared.value.Value.TheVariants.{Kw, Str};
ghost use Rattle.serial_model.specs.Operation.{local_value};
ghost use Rattle.eval_frames.specs.Leaf.{leaf_of};

use crate::frame::Frame;
use core_syntax::Node;
use known_values::Known;
use std::alloc::{AllocError, Global};
use value_core::{Text, Value};

/// Appends the value of the node in that frame, if that shows at once, and says whether it does.
pub fn push_leaf(
    alloc: Global,
    node: &Node,
    frame: &Frame,
    values: &mut Frame,
) -> Result<bool, AllocError>
    ensures pushed { IfOk result (λ shows. shows ≡ true → IsSomeAnd (leaf_of frame.now node.now) (λ v. values.new ≡ values.old ++ v ∷ [])) }
    ensures stays { IfOk result (λ shows. shows ≡ false → values.new ≡ values.old) }
{
    match node {
        Node::Int(number) => push(values, Value::Int(*number)),
        Node::Local(place) => push_local(frame, *place, values),
        Node::Nil => push(values, Value::Nil),
        Node::Bool(truth) => push(values, Value::Bool(*truth)),
        Node::Str(text) => push_text(alloc, text, values),
        Node::Kw(name) => push_keyword(alloc, name, values),
        _ => Ok(false),
    }
}

// Appends the text, and says that it does.
fn push_text(alloc: Global, text: &Text, values: &mut Frame) -> Result<bool, AllocError>
    ensures { IfOk result (λ shows. (shows ≡ true) × (values.new ≡ values.old ++ Str text.now ∷ [])) }
{
    push(values, Value::Str(text.copy(alloc)?))
}

// Appends the keyword, and says that it does.
fn push_keyword(alloc: Global, name: &Text, values: &mut Frame) -> Result<bool, AllocError>
    ensures { IfOk result (λ shows. (shows ≡ true) × (values.new ≡ values.old ++ Kw name.now ∷ [])) }
{
    push(values, Value::Kw(name.copy(alloc)?))
}

// Appends the value at that place of the frame, if its copy takes no memory, and says whether it does.
fn push_local(frame: &Frame, place: u32, values: &mut Frame) -> Result<bool, AllocError>
    ensures pushed { IfOk result (λ shows. shows ≡ true → values.new ≡ values.old ++ local_value frame.now place ∷ []) }
    ensures stays { IfOk result (λ shows. shows ≡ false → values.new ≡ values.old) }
{
    match frame.values().get(place as usize) {
        Some(Value::Int(number)) => push(values, Value::Int(*number)),
        Some(Value::Bool(truth)) => push(values, Value::Bool(*truth)),
        Some(Value::Nil) => push(values, Value::Nil),
        _ => Ok(false),
    }
}

// Appends the value, and says that it does.
fn push(values: &mut Frame, value: Value) -> Result<bool, AllocError>
    ensures { IfOk result (λ shows. (shows ≡ true) × (values.new ≡ values.old ++ value ∷ [])) }
{
    values.push(Known::unseen(value))?;
    Ok(true)
}
