ghost use Rattle.std.specs.Prelude.{◌≡◌, [], ◌++◌, map, codes, IfOk};
ghost use Rattle.std.specs.List.{flat_map};
ghost use Rattle.value_core.specs.Texts.{joined, string_text, key_text, value_text, line_of, str_piece, str_text};

use std::alloc::{AllocError, Global};
use value_core::text_writing::{push_bool, push_int, push_keyword, push_quoted, push_separator};
use value_core::{Key, Pairs, Style, Text, Value, Values};

/// The line of some values: their plain texts with one space between them, and a line feed.
pub fn print_line(alloc: Global, args: &[Value]) -> Result<Text, AllocError>
    ensures { IfOk result (λ text. text ≡ line_of args.now) }
{
    let mut text = Text::new(alloc);
    for (index, value) in args.iter().enumerate() {
        push_separator(&mut text, index, b" ")?;
        push_value(&mut text, Style::Plain, value)?;
    }
    text.extend(b"\n")?;
    Ok(text)
}

/// The string of some values, with nothing between them: nothing for nil, a string's bytes, and else the readable text.
pub fn str_of(alloc: Global, args: &[Value]) -> Result<Text, AllocError>
    ensures { IfOk result (λ text. text ≡ str_text args.now) }
{
    let mut text = Text::new(alloc);
    for value in args {
        push_str_piece(&mut text, value)?;
    }
    Ok(text)
}

/// The readable text of a value: its plain text, but for strings, which stand between quotes and with escapes.
pub fn readable(alloc: Global, value: &Value) -> Result<Text, AllocError>
    ensures { IfOk result (λ text. text ≡ value_text Style.Readable value.now) }
{
    let mut text = Text::new(alloc);
    push_value(&mut text, Style::Readable, value)?;
    Ok(text)
}

fn push_str_piece(text: &mut Text, value: &Value) -> Result<(), AllocError>
    ensures { IfOk result (λ _. text.new ≡ text.old ++ str_piece value.now) }
{
    match value {
        Value::Nil => Ok(()),
        Value::Str(string) => text.extend(string.items()),
        other => push_value(text, Style::Readable, other),
    }
}

#[cycle(print)]
#[tactic(auto, using(crate::proofs::MapTexts::value_text_map))]
fn push_value(text: &mut Text, style: Style, value: &Value) -> Result<(), AllocError>
    ensures { IfOk result (λ _. text.new ≡ text.old ++ value_text style value.now) }
{
    match value {
        Value::Nil => text.extend(b"nil"),
        Value::Bool(value) => push_bool(text, *value),
        Value::Int(value) => push_int(text, *value),
        Value::Str(string) => push_string(text, style, string),
        Value::Kw(name) => push_keyword(text, name),
        Value::Vector(items) => push_vector(text, style, items),
        Value::Map(pairs) => push_map(text, style, pairs),
        Value::Ref(_) => text.extend(b"#<ref>"),
        Value::Actor(_) => text.extend(b"#<actor>"),
        Value::Future(_) => text.extend(b"#<future>"),
    }
}

#[cycle(print)]
fn push_vector(text: &mut Text, style: Style, items: &Values) -> Result<(), AllocError>
    ensures { IfOk result (λ _. text.new ≡ text.old ++ (codes "[" ++ joined (codes " ") (map (value_text style) items.now) ++ codes "]")) }
{
    text.extend(b"[")?;
    let mut before = 0usize;
    for item in items.iter() {
        push_separator(text, before, b" ")?;
        push_value(text, style, item)?;
        before = before.saturating_add(1);
    }
    text.extend(b"]")
}

#[cycle(print)]
fn push_map(text: &mut Text, style: Style, pairs: &Pairs) -> Result<(), AllocError>
    ensures { IfOk result (λ _. text.new ≡ text.old ++ (codes "{" ++ joined (codes ", ") (map (λ p. key_text style p.key ++ codes " " ++ value_text style p.value) pairs.now) ++ codes "}")) }
{
    text.extend(b"{")?;
    for (index, pair) in pairs.items().iter().enumerate() {
        push_separator(text, index, b", ")?;
        push_key(text, style, &pair.key)?;
        text.extend(b" ")?;
        push_value(text, style, &pair.value)?;
    }
    text.extend(b"}")
}

fn push_key(text: &mut Text, style: Style, key: &Key) -> Result<(), AllocError>
    ensures { IfOk result (λ _. text.new ≡ text.old ++ key_text style key.now) }
{
    match key {
        Key::Bool(value) => push_bool(text, *value),
        Key::Int(value) => push_int(text, *value),
        Key::Kw(name) => push_keyword(text, name),
        Key::Str(string) => push_string(text, style, string),
    }
}

fn push_string(text: &mut Text, style: Style, string: &Text) -> Result<(), AllocError>
    ensures { IfOk result (λ _. text.new ≡ text.old ++ string_text style string.now) }
{
    match style {
        Style::Plain => text.extend(string.items()),
        Style::Readable => push_quoted(text, string.items()),
    }
}
