use crate::words::{value_of, values_of};
use std::alloc::{AllocError, Global};
use std::test::Fail;
use value_print::{print_line, readable, str_of};

fn is_line(alloc: Global, words: &[u8], line: &[u8]) -> Result<bool, AllocError> {
    let values = values_of(alloc, words)?;
    Ok(print_line(alloc, values.chunk_from(0))?.items() == line)
}

#[test]
fn lines_hold_plain_texts(rt: HostRuntime) -> Result<(), Fail> {
    let table: [(&[u8], &[u8]); 3] = [
        (b"", b"\n"),
        (
            b"\"a MIN nil true false :key mixed keyed",
            b"a -9223372036854775808 nil true false :key [1 b nil] {false 7, 2 [], :k true, s t}\n",
        ),
        (b"empty ref actor future", b"{} #<ref> #<actor> #<future>\n"),
    ];
    for (words, line) in table {
        assert!(rt; is_line(rt.alloc(), words, line)?);
    }
    Ok(())
}

fn is_readable(alloc: Global, word: &[u8], text: &[u8]) -> Result<bool, AllocError> {
    let value = value_of(alloc, word)?;
    Ok(readable(alloc, &value)?.items() == text)
}

#[test]
fn readable_texts_quote_strings(rt: HostRuntime) -> Result<(), Fail> {
    let table: [(&[u8], &[u8]); 2] = [
        (b"keyed", b"{false 7, 2 [], :k true, \"s\" \"t\"}"),
        (
            b"\"q\" b\\ n\n t\t r\r f\x0c b\x08 \x0b",
            b"\"q\\\" b\\\\ n\\n t\\t r\\r f\\f b\\b \x0b\"",
        ),
    ];
    for (word, text) in table {
        assert!(rt; is_readable(rt.alloc(), word, text)?);
    }
    Ok(())
}

fn is_str(alloc: Global, words: &[u8], text: &[u8]) -> Result<bool, AllocError> {
    let values = values_of(alloc, words)?;
    Ok(str_of(alloc, values.chunk_from(0))?.items() == text)
}

#[test]
fn str_joins_strings_and_readable_texts(rt: HostRuntime) -> Result<(), Fail> {
    assert!(rt; is_str(rt.alloc(), b"\"a\" nil 0 mixed :k", b"a\"0[1 \"b\" nil]:k")?);
    Ok(())
}
