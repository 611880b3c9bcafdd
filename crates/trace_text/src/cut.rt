//! Bytes cut where a mark or a prefix stands.
ghost use Rattle.std.specs.Prelude.{◌≡◌, ◌≢◌, ◌++◌, ◌↔◌, ℕ, List, true, IsTrue, IsNone, IfSome, position};
ghost use Rattle.trace_text.specs.Cut.{IsCut, is_mark, is_without};

/// What stands before the first byte that is the mark, and what stands after it. `None` comes where there is no such byte.
pub fn cut(bytes: &[u8], mark: u8) -> Option<(&[u8], &[u8])>
    ensures some { IfSome result (λ parts. IsCut mark bytes.now parts.0.now parts.1.now) }
    ensures none { IsNone result → is_without mark bytes.now ≡ true }
{
    let place = place_of(bytes, mark)?;
    Some((&bytes[..place], &bytes[place + 1..]))
}

// The place of the first byte that is the mark.
fn place_of(bytes: &[u8], mark: u8) -> Option<usize>
    ensures { result ≡ position (is_mark mark) bytes.now }
{
    bytes.iter().position(|byte| *byte == mark)
}

/// What stands after this prefix. `None` comes where the bytes begin otherwise.
pub fn after_prefix<'a>(bytes: &'a [u8], prefix: &[u8]) -> Option<&'a [u8]>
    ensures some { IfSome result (λ rest. bytes.now ≡ prefix.now ++ rest.now) }
    ensures none { IsNone result → (rest : List ℕ) → bytes.now ≢ prefix.now ++ rest }
{
    bytes.strip_prefix(prefix)
}

/// Whether the bytes are these.
pub fn are(bytes: &[u8], others: &[u8]) -> bool
    ensures { IsTrue result ↔ (bytes.now ≡ others.now) }
{
    bytes == others
}
