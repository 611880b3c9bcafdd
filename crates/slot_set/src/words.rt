ghost use Rattle.std.specs.Prelude.{◌≡◌, ℕ, ◌*◌, ◌/◌, ◌^◌, ◌<◌, ◌≤◌, ◌==◌, ◌↔◌, length, max, IsTrue, IfSome, IfNone, OnOk, OnErr};
ghost use Rattle.std.specs.Int.{bit_at};
ghost use Rattle.slot_set.specs.Words.{bit, word, Writes, IsFirstWord, IsFirstBit, IsZero};

use std::alloc::AllocError;

/// Sets a bit, and so the word is not zero.
pub(crate) fn set_bit(words: &mut Vec<u64>, at: usize)
    requires { at < 64 * length words.old.items }
    ensures writes { Writes words.old.items words.new.items at 1 }
    ensures some { 0 < word words.new.items (at / 64) }
{
    words[at / 64] = words[at / 64] | (1 << (at % 64));
}

/// Clears a bit, and answers whether the word is zero now.
pub(crate) fn clear_bit(words: &mut Vec<u64>, at: usize) -> bool
    requires { at < 64 * length words.old.items }
    ensures writes { Writes words.old.items words.new.items at 0 }
    ensures none { IsTrue result ↔ (word words.new.items (at / 64) ≡ 0) }
    ensures shrinks { 0 < word words.new.items (at / 64) → 0 < word words.old.items (at / 64) }
{
    let left = words[at / 64] & !(1 << (at % 64));
    words[at / 64] = left;
    left == 0
}

pub(crate) fn has_bit(words: &[u64], at: usize) -> bool
    ensures { result ≡ (bit words.now at == 1) }
{
    match words.get(at / 64) {
        Some(word) => has_place(*word, at % 64),
        None => false,
    }
}

fn has_place(word: u64, place: usize) -> bool
    requires { place < 64 }
    ensures { IsTrue result ↔ (bit_at word place ≡ 1) }
{
    (word >> place) & 1 == 1
}

/// The lowest place that is set.
fn first_place(word: u64) -> usize
    requires { 0 < word }
    ensures within { result < 64 }
    ensures set { bit_at word result ≡ 1 }
    ensures least { (place : ℕ) → place < result → bit_at word place ≡ 0 }
{
    word.trailing_zeros() as usize
}

/// The first word that is not zero.
pub(crate) fn first_word(words: &[u64]) -> Option<usize>
    ensures some { IfSome result (λ w. IsFirstWord words.now w) }
    ensures none { IfNone result (IsZero words.now) }
{
    words.iter().position(|word| *word != 0)
}

/// The first bit, where this is the first word that is not zero.
pub(crate) fn first_bit(words: &[u64], w: usize) -> usize
    requires first { IsFirstWord words.now w }
    requires fits { length words.now ≤ 2 ^ 58 }
    ensures first { IsFirstBit words.now result }
    ensures within { result < 64 * length words.now }
{
    w * 64 + first_place(words[w])
}

/// Makes it so many words at least, the new ones zero, or finds no memory.
pub(crate) fn grow(words: &mut Vec<u64>, count: usize) -> Result<(), AllocError>
    ensures same { (index : ℕ) → word words.new.items index ≡ word words.old.items index }
    ensures ok { OnOk result (count ≤ length words.new.items) }
    ensures kept { length words.old.items ≤ length words.new.items }
    ensures at_most { length words.new.items ≤ max (length words.old.items) count }
    ensures err { OnErr result (words.new.items ≡ words.old.items) }
{
    if count <= words.len() {
        return Ok(());
    }
    words.resize(count, 0)
}
