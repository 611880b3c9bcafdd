ghost use Rattle.std.specs.Prelude.{◌≡◌, ◌≢◌, true, false, Ok, Err, Some, None, ◌∷◌, [], IfOk, IfErr};
ghost use Rattle.sexpr_reader.specs.Bytes.{has};
ghost use Rattle.sexpr_reader.specs.Grammar.{RefusedAs};
ghost use Rattle.sexpr_reader.specs.Lead.{begins, lead_of};
ghost use Rattle.sexpr_reader.specs.Names.{IsName, Misfit};
ghost use Rattle.sexpr_reader.specs.Steps.{IsPiece, IsKind, IsNext, gap_class};
ghost use Rattle.sexpr_reader.specs.Strings.{unescaped};
ghost use Rattle.sexpr_reader.specs.Tokens.{named, Begins, Fails};
ghost use Rattle.sexpr_reader.specs.declared.error.ReadKind.TheVariants.{BadByte};

use crate::error::{ReadKind, ReadNo, refused};
use crate::integer::integer;
use crate::lead::{Class, Lead};
use crate::reader::Reader;
use crate::token::{Atom, Token, TokenKind};
use std::alloc::Global;
use value_core::{Place, Text};

/// The next token, or none at the end of the source.
pub fn next_token(alloc: Global, reader: &mut Reader) -> Result<Option<Token>, ReadNo>
    ensures { IsNext reader.old result reader.new }
{
    reader.skip();
    let at = reader.place();
    let lead = reader.lead();
    if matches!(lead, Lead::End) {
        return Ok(None);
    }
    match token_kind(alloc, reader, lead) {
        Ok(kind) => Ok(Some(Token { at, kind })),
        Err(error) => Err(error),
    }
}

/// The token that begins here.
fn token_kind(alloc: Global, reader: &mut Reader, lead: Lead) -> Result<TokenKind, ReadNo>
    requires lead { lead ≡ lead_of reader.old.rest }
    requires not_at_end { lead ≢ Lead.End }
    requires not_in_gap { gap_class lead ≡ None }
    ensures { IsKind lead reader.old result reader.new }
{
    match lead {
        Lead::Open(group) => {
            reader.advance();
            Ok(TokenKind::Open(group))
        }
        Lead::Close(group) => {
            reader.advance();
            Ok(TokenKind::Close(group))
        }
        Lead::Quote => Ok(TokenKind::Atom(Atom::Str(string(alloc, reader)?))),
        Lead::Colon => Ok(TokenKind::Atom(Atom::Kw(keyword(alloc, reader)?))),
        Lead::Number => Ok(TokenKind::Atom(Atom::Int(number(reader)?))),
        Lead::Other => Ok(TokenKind::Atom(symbol(alloc, reader)?)),
        _ => unreachable!(),
    }
}

/// The string that begins here.
fn string(alloc: Global, reader: &mut Reader) -> Result<Text, ReadNo>
    requires { lead_of reader.old.rest ≡ Lead.Quote }
    ensures found { IfOk result (λ text. Begins Lead.Quote reader.old (TokenKind.Atom (Atom.Str text)) reader.new) }
    ensures refused { IfErr result (RefusedAs (Fails Lead.Quote reader.old)) }
{
    let quote = reader.place();
    reader.advance();
    let mut text = Text::new(alloc);
    'content: while let Some(byte) = string_byte(reader, quote)? {
        text.push(byte).map_err(|_| ReadNo::Memory)?;
    }
    Ok(text)
}

/// The next byte of a string, or none where it is closed.
fn string_byte(reader: &mut Reader, quote: Place) -> Result<Option<u8>, ReadNo>
    ensures { IsPiece quote reader.old result reader.new }
{
    let at = reader.place();
    match reader.advance() {
        None => Err(refused(ReadKind::Unclosed, quote)),
        Some(b'"') => Ok(None),
        Some(b'\\') => match reader.advance() {
            None => Err(refused(ReadKind::Unclosed, quote)),
            Some(byte) => match unescaped(byte) {
                Some(byte) => Ok(Some(byte)),
                None => Err(refused(ReadKind::BadString, at)),
            },
        },
        Some(byte) => Ok(Some(byte)),
    }
}

/// The byte that a backslash and this byte stand for.
fn unescaped(byte: u8) -> Option<u8>
    ensures { result ≡ unescaped byte }
{
    match byte {
        b'"' | b'\\' => Some(byte),
        b'n' => Some(b'\n'),
        b't' => Some(b'\t'),
        b'r' => Some(b'\r'),
        b'f' => Some(12),
        b'b' => Some(8),
        _ => None,
    }
}

/// The number that begins here.
fn number(reader: &mut Reader) -> Result<i64, ReadNo>
    requires { lead_of reader.old.rest ≡ Lead.Number }
    ensures found { IfOk result (λ n. Begins Lead.Number reader.old (TokenKind.Atom (Atom.Int n)) reader.new) }
    ensures refused { IfErr result (RefusedAs (Fails Lead.Number reader.old)) }
{
    let at = reader.place();
    match integer(reader.run(Class::Word)) {
        Some(n) => Ok(n),
        None => Err(refused(ReadKind::BadNumber, at)),
    }
}

/// The name of the keyword that begins here.
fn keyword(alloc: Global, reader: &mut Reader) -> Result<Text, ReadNo>
    requires { lead_of reader.old.rest ≡ Lead.Colon }
    ensures found { IfOk result (λ name. Begins Lead.Colon reader.old (TokenKind.Atom (Atom.Kw name)) reader.new) }
    ensures refused { IfErr result (RefusedAs (Fails Lead.Colon reader.old)) }
{
    let colon = reader.place();
    reader.advance();
    expect_word(reader, colon)?;
    name(alloc, reader)
}

/// Checks that a word begins here, and refuses the colon before it where none does.
fn expect_word(reader: &Reader, colon: Place) -> Result<(), ReadNo>
    ensures word { IfOk result (λ _. begins (has Class.Word) reader.now.rest ≡ true) }
    ensures refused { IfErr result (λ error. (begins (has Class.Word) reader.now.rest ≡ false) × (error ≡ ReadNo.Refused BadByte colon)) }
{
    if !reader.begins(Class::Word) {
        return Err(refused(ReadKind::BadByte, colon));
    }
    Ok(())
}

/// The symbol, `nil`, `true` or `false` that begins here.
fn symbol(alloc: Global, reader: &mut Reader) -> Result<Atom, ReadNo>
    requires { lead_of reader.old.rest ≡ Lead.Other }
    ensures found { IfOk result (λ atom. Begins Lead.Other reader.old (TokenKind.Atom atom) reader.new) }
    ensures refused { IfErr result (RefusedAs (Fails Lead.Other reader.old)) }
{
    match name(alloc, reader) {
        Ok(name) => Ok(named(name)),
        Err(error) => Err(error),
    }
}

/// The name that begins here.
fn name(alloc: Global, reader: &mut Reader) -> Result<Text, ReadNo>
    requires { begins (has Class.Word) reader.old.rest ≡ true }
    ensures found { IfOk result (λ name. IsName reader.old name reader.new) }
    ensures refused { IfErr result (RefusedAs (λ kind at. (kind ≡ BadByte) × Misfit reader.old at)) }
{
    if !reader.begins(Class::Name) {
        return Err(refused(ReadKind::BadByte, reader.place()));
    }
    let name = reader.run(Class::Later);
    if reader.begins(Class::Word) {
        return Err(refused(ReadKind::BadByte, reader.place()));
    }
    match Text::from_bytes(alloc, name) {
        Ok(name) => Ok(name),
        Err(_) => Err(ReadNo::Memory),
    }
}

/// What a name is that does not begin with a colon.
fn named(name: Text) -> Atom
    ensures { result ≡ named name }
{
    if name.items() == b"nil".as_slice() {
        Atom::Nil
    } else if name.items() == b"true".as_slice() {
        Atom::Bool(true)
    } else if name.items() == b"false".as_slice() {
        Atom::Bool(false)
    } else {
        Atom::Sym(name)
    }
}
