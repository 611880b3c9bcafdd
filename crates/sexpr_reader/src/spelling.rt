ghost use Rattle.std.specs.Prelude.{◌≡◌, ◌++◌, map, codes, IfOk};
ghost use Rattle.sexpr_reader.specs.Spelling.{grouped, kind_text, form_text, spelling};

use crate::form::{Form, FormKind, Forms};
use std::alloc::{AllocError, Global};
use value_core::Text;
use value_core::text_writing::{push_bool, push_int, push_keyword, push_quoted, push_separator};

/// The text of the forms: one per line, and one space between parts.
pub fn spell(alloc: Global, forms: &Forms) -> Result<Text, AllocError>
    ensures { IfOk result (λ text. text ≡ spelling forms.now) }
{
    let mut text = Text::new(alloc);
    for form in forms.items() {
        push_line(&mut text, form)?;
    }
    Ok(text)
}

fn push_line(text: &mut Text, form: &Form) -> Result<(), AllocError>
    ensures { IfOk result (λ _. text.new ≡ text.old ++ (form_text form.now ++ codes "\n")) }
{
    push_form(text, form)?;
    text.extend(b"\n")
}

#[cycle(spell)]
fn push_form(text: &mut Text, form: &Form) -> Result<(), AllocError>
    ensures { IfOk result (λ _. text.new ≡ text.old ++ form_text form.now) }
{
    match &form.kind {
        FormKind::Nil => text.extend(b"nil"),
        FormKind::Bool(value) => push_bool(text, *value),
        FormKind::Int(value) => push_int(text, *value),
        FormKind::Str(string) => push_quoted(text, string.items()),
        FormKind::Kw(name) => push_keyword(text, name),
        FormKind::Sym(name) => text.extend(name.items()),
        FormKind::List(parts) => push_parts(text, parts, b"(", b")"),
        FormKind::Vector(parts) => push_parts(text, parts, b"[", b"]"),
        FormKind::Map(parts) => push_parts(text, parts, b"{", b"}"),
        FormKind::At(parts) => push_parts(text, parts, b"@", b""),
    }
}

#[cycle(spell)]
fn push_parts(text: &mut Text, parts: &Forms, opens: &[u8], closes: &[u8]) -> Result<(), AllocError>
    ensures { IfOk result (λ _. text.new ≡ text.old ++ grouped opens.now closes.now (map form_text parts.now)) }
{
    text.extend(opens)?;
    for (index, part) in parts.items().iter().enumerate() {
        push_separator(text, index, b" ")?;
        push_form(text, part)?;
    }
    text.extend(closes)
}
