//! The pieces that printed values and spelled forms share, each appended to a text.
ghost use Rattle.std.specs.Prelude.{◌≡◌, ◌==◌, if◌then◌else◌, [], ◌++◌, codes, IfOk};
ghost use Rattle.std.specs.Fmt.{signed_decimal};
ghost use Rattle.value_core.specs.Texts.{bool_text, escaped, quoted};

use crate::Text;
use itoa::Buffer;
use std::alloc::AllocError;

/// Appends the separator, but not before the first of some texts.
pub fn push_separator(text: &mut Text, index: usize, separator: &[u8]) -> Result<(), AllocError>
    ensures { IfOk result (λ _. text.new ≡ text.old ++ (if index == 0 then [] else separator.now)) }
{
    if index == 0 {
        return Ok(());
    }
    text.extend(separator)
}

/// Appends the word of the boolean.
pub fn push_bool(text: &mut Text, value: bool) -> Result<(), AllocError>
    ensures { IfOk result (λ _. text.new ≡ text.old ++ bool_text value) }
{
    if value {
        text.extend(b"true")
    } else {
        text.extend(b"false")
    }
}

/// Appends the integer in decimal.
pub fn push_int(text: &mut Text, value: i64) -> Result<(), AllocError>
    ensures { IfOk result (λ _. text.new ≡ text.old ++ signed_decimal value) }
{
    let mut buffer = Buffer::new();
    text.extend(buffer.format(value).as_bytes())
}

/// Appends the keyword of that name, with its colon.
pub fn push_keyword(text: &mut Text, name: &Text) -> Result<(), AllocError>
    ensures { IfOk result (λ _. text.new ≡ text.old ++ (codes ":" ++ name.now)) }
{
    text.extend(b":")?;
    text.extend(name.items())
}

/// Appends the string between quotes, with escapes.
pub fn push_quoted(text: &mut Text, string: &[u8]) -> Result<(), AllocError>
    ensures { IfOk result (λ _. text.new ≡ text.old ++ quoted string.now) }
{
    text.extend(b"\"")?;
    for byte in string {
        push_escaped(text, *byte)?;
    }
    text.extend(b"\"")
}

fn push_escaped(text: &mut Text, byte: u8) -> Result<(), AllocError>
    ensures { IfOk result (λ _. text.new ≡ text.old ++ escaped byte) }
{
    match byte {
        b'"' => text.extend(b"\\\""),
        b'\\' => text.extend(b"\\\\"),
        b'\n' => text.extend(b"\\n"),
        b'\t' => text.extend(b"\\t"),
        b'\r' => text.extend(b"\\r"),
        12 => text.extend(b"\\f"),
        8 => text.extend(b"\\b"),
        other => text.extend(&[other]),
    }
}
