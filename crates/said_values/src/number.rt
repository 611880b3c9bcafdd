ghost use Rattle.std.specs.Prelude.{◌≡◌, ◌≤◌, ◌^◌, Some, IfSome, IfNone};
ghost use Rattle.said_values.specs.Number.{has_no_needless_zero, is_number, number_of};
ghost use Rattle.std.specs.Char.{is_ascii_digit};
ghost use Rattle.std.specs.List.{list_all};

/// The number that the text spells, and `None` where it spells none or one above a `u64`.
pub(crate) fn number(text: &str) -> Option<u64>
    ensures some { IfSome result (λ n. number_of text.now ≡ Some n) }
    ensures none { IfNone result (IfSome (number_of text.now) (λ n. 2 ^ 64 ≤ n)) }
{
    if is_number(text.as_bytes()) {
        text.parse().ok()
    } else {
        None
    }
}

/// Whether the text is `0`, or a digit from 1 to 9 with digits behind it, at most 20 in all.
fn is_number(text: &[u8]) -> bool
    ensures { result ≡ is_number text.now }
{
    text.len() <= 20 && has_no_needless_zero(text) && is_all_digits(text)
}

fn has_no_needless_zero(text: &[u8]) -> bool
    ensures { result ≡ has_no_needless_zero text.now }
{
    match text {
        [] => false,
        [_] => true,
        [first, ..] => *first != b'0',
    }
}

fn is_all_digits(text: &[u8]) -> bool
    ensures { result ≡ list_all is_ascii_digit text.now }
{
    text.iter().all(|b| b.is_ascii_digit())
}
