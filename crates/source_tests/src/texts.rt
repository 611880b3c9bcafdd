use sexpr_reader::{Form, FormKind, ReadKind, ReadNo, read, spell};
use std::alloc::Global;
use std::test::Fail;

/// The parts of a form, where it is a list, vector or map, or an `@`.
fn parts(form: &Form) -> &[Form] {
    match &form.kind {
        FormKind::List(parts) => parts.items(),
        FormKind::Vector(parts) => parts.items(),
        FormKind::Map(parts) => parts.items(),
        FormKind::At(parts) => parts.items(),
        _ => &[],
    }
}

fn text(form: &Form) -> &[u8] {
    match &form.kind {
        FormKind::Str(text) => text.items(),
        FormKind::Kw(text) => text.items(),
        FormKind::Sym(text) => text.items(),
        _ => b"",
    }
}

fn kind(form: &Form) -> &str {
    match &form.kind {
        FormKind::Nil => "nil",
        FormKind::Bool(true) => "true",
        FormKind::Bool(false) => "false",
        FormKind::Int(_) => "integer",
        FormKind::Str(_) => "string",
        FormKind::Kw(_) => "keyword",
        FormKind::Sym(_) => "symbol",
        FormKind::List(_) => "list",
        FormKind::Vector(_) => "vector",
        FormKind::Map(_) => "map",
        FormKind::At(_) => "at",
    }
}

/// What a form is, where it begins, and its text, where it is a string, a keyword or a symbol.
type Row = (&'static str, u32, u32, &'static [u8]);

fn is_row(form: &Form, row: &Row) -> bool {
    kind(form) == row.0
        && form.at.line() == row.1
        && form.at.column() == row.2
        && text(form) == row.3
}

fn are_rows(forms: &[Form], rows: &[Row]) -> bool {
    if forms.len() != rows.len() {
        return false;
    }
    for (form, row) in forms.iter().zip(rows.iter()) {
        if !is_row(form, row) {
            return false;
        }
    }
    true
}

/// The parts of the first form.
fn first_parts(forms: &[Form]) -> &[Form] {
    match forms {
        [] => &[],
        [first, ..] => parts(first),
    }
}

/// Whether the source is read as these forms, the first of which has these parts.
fn reads_as(alloc: Global, source: &[u8], forms: &[Row], inside: &[Row]) -> Result<bool, ReadNo> {
    let found = read(alloc, source)?;
    Ok(are_rows(found.items(), forms) && are_rows(first_parts(found.items()), inside))
}

#[test]
fn reads_forms(rt: HostRuntime) -> Result<(), Fail> {
    let rows: [(&[u8], &[Row], &[Row]); 7] = [
        (b"", &[], &[]),
        (b" ; only a comment", &[], &[]),
        (
            b"(println 7)",
            &[("list", 1, 1, b"")],
            &[("symbol", 1, 2, b"println"), ("integer", 1, 10, b"")],
        ),
        (
            b"[nil true,false :k' a'b] ; (\n {}",
            &[("vector", 1, 1, b""), ("map", 2, 2, b"")],
            &[
                ("nil", 1, 2, b""),
                ("true", 1, 6, b""),
                ("false", 1, 11, b""),
                ("keyword", 1, 17, b"k'"),
                ("symbol", 1, 21, b"a'b"),
            ],
        ),
        (
            b"@a b",
            &[("at", 1, 1, b""), ("symbol", 1, 4, b"b")],
            &[("symbol", 1, 2, b"a")],
        ),
        (
            b"\"\\\"\\\\\\n\\t\\r\\f\\b\n\xc3\xa9\" x",
            &[
                ("string", 1, 1, b"\"\\\n\t\r\x0c\x08\n\xc3\xa9"),
                ("symbol", 2, 5, b"x"),
            ],
            &[],
        ),
        (
            b"@[-9223372036854775808 +0 - -a]",
            &[("at", 1, 1, b"")],
            &[("vector", 1, 2, b"")],
        ),
    ];
    for (source, forms, inside) in rows {
        assert!(rt; reads_as(rt.alloc(), source, forms, inside)?);
    }
    Ok(())
}

fn refusal(error: &ReadNo) -> Option<(ReadKind, u32, u32)> {
    match error {
        ReadNo::Refused { kind, at } => Some((*kind, at.line(), at.column())),
        ReadNo::Memory => None,
    }
}

// Why and where the source is refused.
fn refused(alloc: Global, source: &[u8]) -> Option<(ReadKind, u32, u32)> {
    match read(alloc, source) {
        Err(error) => refusal(&error),
        Ok(_forms) => None,
    }
}

#[test]
fn refuses_other_sources(rt: HostRuntime) {
    let rows: [(&[u8], ReadKind, u32, u32); 21] = [
        (b"(println (+ 1 2)", ReadKind::Unclosed, 1, 1),
        (b"(println 07)", ReadKind::BadNumber, 1, 10),
        (b"9223372036854775808", ReadKind::BadNumber, 1, 1),
        (b"-9223372036854775809", ReadKind::BadNumber, 1, 1),
        (b" 12a", ReadKind::BadNumber, 1, 2),
        (b"a\n)", ReadKind::Unmatched, 2, 1),
        (b"(a]", ReadKind::Unmatched, 1, 3),
        (b"(@)", ReadKind::Unmatched, 1, 3),
        (b"(a @", ReadKind::Unclosed, 1, 4),
        (b"(a \"b", ReadKind::Unclosed, 1, 4),
        (b"\"a\\", ReadKind::Unclosed, 1, 1),
        (b"\"a\\x\"", ReadKind::BadString, 1, 3),
        (b"a:", ReadKind::BadByte, 1, 2),
        (b": a", ReadKind::BadByte, 1, 1),
        (b":a:", ReadKind::BadByte, 1, 3),
        (b"'a", ReadKind::BadByte, 1, 1),
        (b"ab\xc3\xa9", ReadKind::BadByte, 1, 3),
        (b"(\n\xff", ReadKind::BadByte, 2, 1),
        (b"; \xc3", ReadKind::BadByte, 1, 3),
        (&[b'['; 257], ReadKind::TooNested, 1, 257),
        (&[b'@'; 256], ReadKind::Unclosed, 1, 256),
    ];
    for (source, kind, line, column) in rows {
        assert_eq!(rt; refused(rt.alloc(), source), Some((kind, line, column)));
    }
}

fn is_spelled_so(alloc: Global, source: &[u8], spelled: &[u8]) -> Result<bool, ReadNo> {
    let forms = read(alloc, source)?;
    match spell(alloc, &forms) {
        Ok(text) => Ok(text.items() == spelled),
        Err(_) => Err(ReadNo::Memory),
    }
}

#[test]
fn spells_forms(rt: HostRuntime) -> Result<(), Fail> {
    let source: &[u8] =
        b" [nil true,false :k a'b] ; x\n{}@(f\n\"\\\"\\\\\\n\\t\\r\\f\\b\xc3\xa9\"@ @x) -7 +0()";
    let spelled: &[u8] =
        b"[nil true false :k a'b]\n{}\n@(f \"\\\"\\\\\\n\\t\\r\\f\\b\xc3\xa9\" @@x)\n-7\n0\n()\n";
    assert!(rt; is_spelled_so(rt.alloc(), source, spelled)?);
    assert!(rt; is_spelled_so(rt.alloc(), spelled, spelled)?);
    Ok(())
}
