ghost use Rattle.std.specs.Prelude.{◌≡◌, ◌≤◌, List, length, take, IfOk, IfErr};
ghost use Rattle.std.specs.Str.{IsUtf8};
ghost use Rattle.std.specs.Str.Lossy.{utf8_valid_len};
ghost use Rattle.sexpr_reader.specs.declared.form.Form.{Form};
ghost use Rattle.sexpr_reader.specs.Cursor.{start, after};
ghost use Rattle.sexpr_reader.specs.Forms.{Spells};
ghost use Rattle.sexpr_reader.specs.Grammar.{IsSource, IsRefused, RefusedAs, source};
ghost use Rattle.sexpr_reader.specs.Limits.{source_limit};

use crate::error::{ReadKind, ReadNo, refused};
use crate::form::Forms;
use crate::lexer::next_token;
use crate::nest::Nest;
use crate::reader::Reader;
use std::alloc::Global;
use value_core::Place;

/// The most bytes that a source may have.
pub const SOURCE_LIMIT: usize = 4_194_304;

/// Reads the forms of a source, each with its place.
///
/// A source of more than `SOURCE_LIMIT` bytes is `TooLong` at line 1, column 1, and bytes that are no UTF-8 are
/// `BadByte` at the first byte that does not fit. Else the tokens are read from left to right, and the first that is
/// refused decides.
pub fn read(alloc: Global, bytes: &[u8]) -> Result<Forms, ReadNo>
    ensures found { IfOk result (IsSource bytes.now) }
    ensures only { (forms : List Form) → IsSource bytes.now forms → IfOk result (λ found. found ≡ forms) }
    ensures refused { IfErr result (RefusedAs (IsRefused bytes.now)) }
{
    if bytes.len() > SOURCE_LIMIT {
        return Err(too_long());
    }
    expect_text(bytes)?;
    read_forms(alloc, bytes)
}

fn too_long() -> ReadNo
    ensures { result ≡ ReadNo.Refused ReadKind.TooLong start }
{
    refused(ReadKind::TooLong, Place::new(1, 1))
}

/// Checks that the bytes are UTF-8, and refuses the first byte that does not fit where they are not.
fn expect_text(bytes: &[u8]) -> Result<(), ReadNo>
    requires { length bytes.now ≤ source_limit }
    ensures text { IfOk result (λ _. IsUtf8 bytes.now) }
    ensures refused { IfErr result (λ error. ¬ IsUtf8 bytes.now × (error ≡ ReadNo.Refused ReadKind.BadByte (after start (take (utf8_valid_len bytes.now) bytes.now)))) }
{
    match str::from_utf8(bytes) {
        Ok(_) => Ok(()),
        Err(error) => Err(refused(ReadKind::BadByte, place_of(bytes, error.valid_up_to()))),
    }
}

/// The place of the byte with this index.
fn place_of(bytes: &[u8], index: usize) -> Place
    requires limit { length bytes.now ≤ source_limit }
    requires within { index ≤ length bytes.now }
    ensures { result ≡ after start (take index bytes.now) }
{
    let mut reader = Reader::new(bytes);
    reader.pass(index);
    reader.place()
}

/// Reads the forms of a text.
fn read_forms(alloc: Global, bytes: &[u8]) -> Result<Forms, ReadNo>
    requires limit { length bytes.now ≤ source_limit }
    requires text { IsUtf8 bytes.now }
    ensures found { IfOk result (Spells (source bytes.now)) }
    ensures only { (forms : List Form) → Spells (source bytes.now) forms → IfOk result (λ found. found ≡ forms) }
    ensures refused { IfErr result (RefusedAs (IsRefused bytes.now)) }
{
    let mut reader = Reader::new(bytes);
    let mut nest = Nest::new(alloc);
    'tokens: while let Some(token) = next_token(alloc, &mut reader)? {
        nest.take(alloc, token)?;
    }
    nest.finish()
}
