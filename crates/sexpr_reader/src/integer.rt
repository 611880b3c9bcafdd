ghost use Rattle.std.specs.Prelude.{◌≡◌, ℤ, MatchOption};
ghost use Rattle.std.specs.Str.Parse.{without_leading_sign};
ghost use Rattle.sexpr_reader.specs.Integer.{IsInteger};

/// The integer that the word spells, if it spells one.
pub fn integer(word: &[u8]) -> Option<i64>
    ensures { MatchOption result ((n : ℤ) → IsInteger word.now n → ⊥) (IsInteger word.now) }
{
    if let [b'0', _, ..] = without_sign(word) {
        return None;
    }
    let Ok(text) = str::from_utf8(word) else {
        return None;
    };
    match text.parse::<i64>() {
        Ok(number) => Some(number),
        Err(_) => None,
    }
}

fn without_sign(word: &[u8]) -> &[u8]
    ensures { result.now ≡ without_leading_sign word.now }
{
    match word {
        [b'+' | b'-', digits @ ..] => digits,
        digits => digits,
    }
}
