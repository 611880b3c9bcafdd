ghost use Rattle.std.specs.Prelude.{◌≡◌};
ghost use Rattle.std.specs.List.{list_any};
ghost use Rattle.std.specs.Str.{bytes_eq};
ghost use Rattle.sugar.specs.Words.{is_form_word};

/// The reserved words that are no primitives.
const FORM_WORDS: [&[u8]; 24] = [
    b"println",
    b"do",
    b"if",
    b"let",
    b"ref",
    b"deref",
    b"ref-set",
    b"fork",
    b"join",
    b"dosync",
    b"spawn",
    b"become",
    b"send",
    b"self",
    b"when",
    b"cond",
    b"and",
    b"or",
    b"alter",
    b"loop",
    b"recur",
    b"def",
    b"defn",
    b"behavior",
];

/// Whether the word is a reserved word that is no primitive. It takes no memory.
pub fn is_form_word(word: &[u8]) -> bool
    ensures { result ≡ is_form_word word.now }
{
    is_among(word, &FORM_WORDS)
}

/// Whether the word is one of these.
fn is_among(word: &[u8], words: &[&[u8]]) -> bool
    ensures { result ≡ list_any (λ w. bytes_eq word.now w.now) words.now }
{
    for known in words {
        if word == *known {
            return true;
        }
    }
    false
}
