ghost use Rattle.std.specs.Prelude.{◌≡◌, map};
ghost use Rattle.std.specs.Option.{option_map};
ghost use Rattle.scope_names.specs.Shapes.{word_of, list_of, items_of, is_text, behind_text, shape_of, listed, worded, function_shape, function_named, def_shape, def_named, behaviour_in, Shows, ShowsReaction};

use sugar::{Core, CoreKind};
use value_core::Place;

/// What a top-level form is, by its outermost parts.
#[derive(Clone, Copy)]
pub enum Shape<'a> {
    /// A function: its name, parameters and body.
    Function(&'a [u8], &'a [Core], &'a [Core]),
    /// A behaviour with its name.
    Behaviour(&'a [u8], Reaction<'a>),
    /// A global: its name and the expression that it is bound to.
    Global(&'a [u8], &'a Core),
    /// An expression.
    Value,
    /// A definition that is not well made.
    Malformed,
}

/// A behaviour: its place, state parameters, message parameters and body.
#[derive(Clone, Copy)]
pub struct Reaction<'a> {
    pub at: Place,
    pub state: &'a [Core],
    pub message: &'a [Core],
    pub body: &'a [Core],
}

/// What the top-level form is.
pub fn shape_of(core: &Core) -> Shape
    ensures { Shows (shape_of core.now) result }
{
    match list_of(core) {
        Some([head, parts @ ..]) => match word_of(head) {
            Some(word) => worded(word, parts),
            None => Shape::Value,
        },
        _ => Shape::Value,
    }
}

// A list whose head is that word.
fn worded<'a>(word: &[u8], parts: &'a [Core]) -> Shape<'a>
    ensures { Shows (worded word.now parts.now) result }
{
    if word == b"defn".as_slice() {
        function_shape(parts)
    } else if word == b"def".as_slice() {
        def_shape(parts)
    } else {
        Shape::Value
    }
}

fn function_shape(parts: &[Core]) -> Shape
    ensures { Shows (function_shape parts.now) result }
{
    let [name, parts @ ..] = parts else {
        return Shape::Malformed;
    };
    match (word_of(name), behind_text(parts)) {
        (Some(name), [parameters, body @ ..]) => match items_of(parameters) {
            Some(parameters) => Shape::Function(name, parameters, body),
            None => Shape::Malformed,
        },
        _ => Shape::Malformed,
    }
}

// The parts without a description in front of them.
fn behind_text(parts: &[Core]) -> &[Core]
    ensures { result.now ≡ behind_text parts.now }
{
    match parts {
        [first, rest @ ..] if is_text(first) => rest,
        _ => parts,
    }
}

fn def_shape(parts: &[Core]) -> Shape
    ensures { Shows (def_shape parts.now) result }
{
    match parts {
        [name, value] => def_named(name, value),
        [name, text, value] if is_text(text) => def_named(name, value),
        _ => Shape::Malformed,
    }
}

fn def_named<'a>(name: &'a Core, value: &'a Core) -> Shape<'a>
    ensures { Shows (def_named (word_of name.now) value.now) result }
{
    let Some(name) = word_of(name) else {
        return Shape::Malformed;
    };
    match behaviour_in(value) {
        Some(reaction) => Shape::Behaviour(name, reaction),
        None => Shape::Global(name, value),
    }
}

fn behaviour_in(core: &Core) -> Option<Reaction>
    ensures { ShowsReaction (behaviour_in core.now) result }
{
    let [head, state, message, body @ ..] = list_of(core)? else {
        return None;
    };
    if word_of(head)? != b"behavior".as_slice() {
        return None;
    }
    Some(Reaction {
        at: core.at,
        state: items_of(state)?,
        message: items_of(message)?,
        body,
    })
}

// The word of a symbol.
fn word_of(core: &Core) -> Option<&[u8]>
    ensures { option_map (λ word. word.now) result ≡ word_of core.now }
{
    match &core.kind {
        CoreKind::Sym(word) => Some(word.items()),
        _ => None,
    }
}

// The parts of a list.
fn list_of(core: &Core) -> Option<&[Core]>
    ensures { option_map (λ parts. parts.now) result ≡ list_of core.now }
{
    match &core.kind {
        CoreKind::List(parts) => Some(parts.items()),
        _ => None,
    }
}

// The items of a vector.
fn items_of(core: &Core) -> Option<&[Core]>
    ensures { option_map (λ items. items.now) result ≡ items_of core.now }
{
    match &core.kind {
        CoreKind::Vector(items) => Some(items.items()),
        _ => None,
    }
}

fn is_text(core: &Core) -> bool
    ensures { result ≡ is_text core.now }
{
    matches!(core.kind, CoreKind::Str(_))
}
