ghost use Rattle.std.specs.Prelude.{◌≡◌, [], ◌∷◌, IfOk};
ghost use Rattle.serial_model.specs.Operation.{Gives, mapped as mapped_of, action_of, sealed as sealed_of, deref_outcome, ref_set_outcome, join_outcome, of_first, of_one, of_two, send_outcome};
ghost use Rattle.serial_model.specs.declared.request.Request.TheVariants as request;
ghost use Rattle.value_core.specs.ToKey.{key_of as key_of_value};
ghost use Rattle.value_core.specs.primitives.Apply.{limited as limited_of};
ghost use Rattle.eval_frames.specs.Finish.{IsAct, finish, meaning};

use crate::outcome::Outcome;
use crate::values::{local, some_future};
use core_syntax::Node;
use known_values::Known;
use serial_model::Request;
use std::alloc::{AllocError, Global};
use value_core::lists::copy_list;
use value_core::{Code, Dict, Key, KeyNo, Value};
use value_print::print_line;

/// What the node does in its frame with the values given, the hidden arguments and then the others. It is no primitive, no
/// vector and no call.
#[tactic(auto, unfolding(crate::specs::Finish::finish))]
pub fn operate(
    alloc: Global,
    node: &Node,
    frame: &[Value],
    given: &[Value],
) -> Result<Outcome, AllocError>
    requires { IsAct node.now }
    ensures { IfOk result (λ outcome. meaning outcome ≡ finish frame.now node.now given.now) }
{
    match node {
        Node::Bool(truth) => Ok(gives(Value::Bool(*truth))),
        Node::Int(number) => Ok(gives(Value::Int(*number))),
        Node::Str(text) => text.copy(alloc).map(|text| gives(Value::Str(text))),
        Node::Kw(name) => name.copy(alloc).map(|name| gives(Value::Kw(name))),
        Node::Local(place) => local(alloc, frame, *place).map(gives),
        Node::Map(_) => mapped(alloc, given),
        Node::Println(_) => {
            print_line(alloc, given).map(|line| Outcome::Asks(Request::Print(line)))
        }
        Node::Ref(_) => new_ref(alloc, given),
        Node::Deref(_) => deref(alloc, given),
        Node::RefSet(_, _) => ref_set(alloc, given),
        Node::Fork(body) => {
            copy_list(alloc, frame).map(|values| Outcome::Asks(Request::Fork(*body, values)))
        }
        Node::Join(_) => join(alloc, given),
        Node::Dosync(body) => {
            copy_list(alloc, frame).map(|values| Outcome::Asks(Request::Dosync(*body, values)))
        }
        Node::Spawn(number, _, _) => {
            copy_list(alloc, given).map(|values| sealed(given, Request::Spawn(*number, values)))
        }
        Node::Become(number, _, _) => {
            copy_list(alloc, given).map(|values| sealed(given, Request::Become(*number, values)))
        }
        Node::Send(_, _) => send(alloc, given),
        Node::SelfActor => Ok(Outcome::Asks(Request::SelfActor)),
        _ => Ok(gives(Value::Nil)),
    }
}

// The value, of which nothing is known.
fn gives(value: Value) -> Outcome
    ensures { meaning result ≡ Gives value }
{
    Outcome::Gives(Known::unseen(value))
}

// The map of these keys and values, by turns.
fn mapped(alloc: Global, entries: &[Value]) -> Result<Outcome, AllocError>
    ensures { IfOk result (λ outcome. meaning outcome ≡ mapped_of entries.now) }
{
    let mut pairs = Dict::new(alloc);
    for index in 0..entries.len() / 2 {
        let key = &entries[2 * index];
        let value = &entries[2 * index + 1];
        let Some(key) = key_of(alloc, key)? else {
            return Ok(Outcome::Faults(Code::WrongType));
        };
        pairs.put(key, value.copy(alloc)?)?;
    }
    Ok(limited(Value::Map(pairs)))
}

// The key that the value is, and `None` where it is none.
fn key_of(alloc: Global, value: &Value) -> Result<Option<Key>, AllocError>
    ensures { IfOk result (λ key. key ≡ key_of_value value.now) }
{
    match value.to_key(alloc) {
        Ok(key) => Ok(Some(key)),
        Err(KeyNo::NotKey) => Ok(None),
        Err(KeyNo::Memory) => Err(AllocError),
    }
}

// The value, where it is at most 200 deep.
fn limited(value: Value) -> Outcome
    ensures { meaning result ≡ action_of (limited_of (Ok value)) }
{
    if value.depth() <= 200 {
        Outcome::Gives(Known::new(value, true))
    } else {
        Outcome::Faults(Code::TooDeep)
    }
}

// The request, where no future would go out with these values.
fn sealed(values: &[Value], request: Request) -> Outcome
    ensures { meaning result ≡ sealed_of values.now request }
{
    if some_future(values) {
        Outcome::Faults(Code::FutureEscapes)
    } else {
        Outcome::Asks(request)
    }
}

fn new_ref(alloc: Global, values: &[Value]) -> Result<Outcome, AllocError>
    ensures { IfOk result (λ outcome. meaning outcome ≡ of_one (λ v. sealed_of (v ∷ []) (request.NewRef v)) values.now) }
{
    match values {
        [content] => Ok(sealed(values, Request::NewRef(content.copy(alloc)?))),
        _ => Ok(Outcome::Faults(Code::WrongType)),
    }
}

fn deref(alloc: Global, values: &[Value]) -> Result<Outcome, AllocError>
    ensures { IfOk result (λ outcome. meaning outcome ≡ of_one deref_outcome values.now) }
{
    match values {
        [Value::Ref(name)] => Ok(Outcome::Asks(Request::Deref(name.copy(alloc)?))),
        _ => Ok(Outcome::Faults(Code::WrongType)),
    }
}

fn ref_set(alloc: Global, values: &[Value]) -> Result<Outcome, AllocError>
    ensures { IfOk result (λ outcome. meaning outcome ≡ of_two ref_set_outcome values.now) }
{
    match values {
        [Value::Ref(name), content] => {
            let request = Request::RefSet(name.copy(alloc)?, content.copy(alloc)?);
            Ok(sealed(&values[1..], request))
        }
        _ => Ok(Outcome::Faults(Code::WrongType)),
    }
}

fn join(alloc: Global, values: &[Value]) -> Result<Outcome, AllocError>
    ensures { IfOk result (λ outcome. meaning outcome ≡ of_one join_outcome values.now) }
{
    match values {
        [Value::Future(name)] => Ok(Outcome::Asks(Request::Join(name.copy(alloc)?))),
        _ => Ok(Outcome::Faults(Code::WrongType)),
    }
}

fn send(alloc: Global, values: &[Value]) -> Result<Outcome, AllocError>
    ensures { IfOk result (λ outcome. meaning outcome ≡ of_first send_outcome values.now) }
{
    match values {
        [Value::Actor(name), message @ ..] => {
            let request = Request::Send(name.copy(alloc)?, copy_list(alloc, message)?);
            Ok(sealed(message, request))
        }
        _ => Ok(Outcome::Faults(Code::WrongType)),
    }
}
