ghost use Rattle.std.specs.Prelude.{◌≡◌, ◌<◌, ◌^◌, ◌↔◌, IsTrue, ℕ, List, [], ◌∷◌, ◌++◌, IfOk, IfErr, IfSome, IfNone, IsNone, OnOk, ◌≢◌, position, drop, ◌+◌, All, length, min, decimal};
ghost use Rattle.value_core.specs.NameText.{is_dot, read_on, WritesNumber};
ghost use Rattle.value_core.specs.Numbers.{numbers_in};
ghost use Rattle.value_core.specs.Name.{after_cmp, name_text, IsTextOf};

use crate::Text;
use crate::numbers::Numbers;
use itoa::Buffer;
use std::alloc::{AllocError, Global};
use std::cmp::Ordering;
use std::marker::Model;
use thiserror::Error;

/// The name of a unit, or of a thing that a unit or a task made: one or more numbers. The first thing that `p` makes is
/// `p` with a 0 more, and main is 0 alone. Up to four numbers take no memory of their own.
#[derive(Debug)]
pub struct Name {
    numbers: Numbers,
}

impl Model for Name {
    ghost use Rattle.std.specs.Prelude.{ℕ, List, length, ◌<◌};
    ghost use Rattle.value_core.specs.Numbers.{numbers_in};

    ghost Value = { List ℕ };

    ghost view = { λ n. numbers_in n.numbers };

    ghost invariant = { λ n. 0 < length (numbers_in n.numbers) };
}

impl Drop for Name {
    fn drop(self) {
        let Name { numbers: _numbers } = self;
    }
}

impl Name {
    /// The name of main.
    pub fn main(alloc: Global) -> Result<Self, AllocError>
        ensures { IfOk result (λ name. name ≡ 0 ∷ []) }
    {
        let mut numbers = Numbers::new();
        numbers.push(alloc, 0)?;
        Ok(Name { numbers })
    }

    /// The numbers of the name, from the root of the tree of names down.
    pub fn parts(&self) -> &[u32]
        ensures value { result.now ≡ self.now }
        ensures not_empty { 0 < length result.now }
    {
        self.numbers.as_slice()
    }

    /// An equal name.
    pub fn copy(&self, alloc: Global) -> Result<Self, AllocError>
        ensures { IfOk result (λ name. name ≡ self.now) }
    {
        Ok(Name {
            numbers: self.numbers.copy(alloc)?,
        })
    }

    /// The name of the thing with this number, from 0, among those that this unit or task makes.
    pub fn child(&self, alloc: Global, number: u32) -> Result<Self, AllocError>
        ensures { IfOk result (λ name. name ≡ self.now ++ number ∷ []) }
    {
        let mut numbers = self.numbers.copy(alloc)?;
        numbers.push(alloc, number)?;
        Ok(Name { numbers })
    }

    /// How this name stands to the other in after-order, where all that a unit or task made comes before it, and of two
    /// things that it made the earlier one first. It takes no memory.
    #[inline]
    pub fn cmp_after(&self, other: &Name) -> Ordering
        ensures { result ≡ after_cmp self.now other.now }
    {
        self.numbers.cmp_after(&other.numbers)
    }

    /// Whether the two are the same name. It takes no memory.
    #[inline]
    pub fn equal(&self, other: &Name) -> bool
        ensures { IsTrue result ↔ (self.now ≡ other.now) }
    {
        self.cmp_after(other).is_eq()
    }

    /// The name that these bytes write: numbers in decimal without leading zeros, below 2 ^ 32, with dots between them.
    /// `BadName` comes exactly where the bytes write no name.
    pub fn read(alloc: Global, bytes: &[u8]) -> Result<Self, NameNo>
        ensures name { IfOk result (λ name. IsTextOf name bytes.now) }
        ensures bad_name { result ≡ Err NameNo.BadName → (numbers : List ℕ) → ¬ IsTextOf numbers bytes.now }
    {
        let mut numbers = Numbers::new();
        let mut rest = bytes;
        while let Some(dot) = first_dot(rest) {
            push_piece(&mut numbers, alloc, &rest[..dot])?;
            rest = after_dot(rest, dot);
        }
        push_piece(&mut numbers, alloc, rest)?;
        Ok(Name { numbers })
    }

    /// The name as it is written: its numbers in decimal, with dots between them.
    pub fn text(&self, alloc: Global) -> Result<Text, AllocError>
        ensures { IfOk result (λ text. text ≡ name_text self.now) }
    {
        let parts = self.parts();
        let mut text = Text::new(alloc);
        push_number(&mut text, parts[0])?;
        for number in &parts[1..] {
            text.extend(b".")?;
            push_number(&mut text, *number)?;
        }
        Ok(text)
    }
}

/// Why bytes are read as no name: they are none, or there was no memory.
#[derive(Clone, Copy, Debug, PartialEq, Eq, Error)]
pub enum NameNo {
    #[error("not a name")]
    BadName,
    #[error("out of memory")]
    Memory,
}

/// How the one list of numbers stands to the other in after-order, place by place.
#[inline]
pub fn compare(left: &[u32], right: &[u32]) -> Ordering
    ensures { result ≡ after_cmp left.now right.now }
{
    for index in 0..left.len().min(right.len()) {
        let found = left[index].cmp(&right[index]);
        if found.is_ne() {
            return found;
        }
    }
    right.len().cmp(&left.len())
}

fn push_number(text: &mut Text, number: u32) -> Result<(), AllocError>
    ensures { IfOk result (λ _. text.new ≡ text.old ++ decimal number) }
{
    let mut buffer = Buffer::new();
    text.extend(buffer.format(number).as_bytes())
}

// The place of the first dot.
fn first_dot(bytes: &[u8]) -> Option<usize>
    ensures { result ≡ position is_dot bytes.now }
{
    bytes.iter().position(|byte| *byte == b'.')
}

// The bytes behind the dot.
fn after_dot(bytes: &[u8], dot: usize) -> &[u8]
    requires { dot < length bytes.now }
    ensures { result.now ≡ drop (dot + 1) bytes.now }
{
    &bytes[dot + 1..]
}

// Appends the number that the piece writes.
fn push_piece(numbers: &mut Numbers, alloc: Global, piece: &[u8]) -> Result<(), NameNo>
    ensures ok { OnOk result (WritesNumber (numbers_in numbers.old) piece.now (numbers_in numbers.new)) }
    ensures bad { result ≡ Err NameNo.BadName → (n : ℕ) → n < 2 ^ 32 → decimal n ≢ piece.now }
{
    let number = read_number(piece).ok_or(NameNo::BadName)?;
    numbers.push(alloc, number).map_err(|_| NameNo::Memory)
}

// The number that the bytes write. Since a number is written in one way alone, it is read by writing it again.
fn read_number(bytes: &[u8]) -> Option<u32>
    ensures some { IfSome result (λ n. decimal n ≡ bytes.now) }
    ensures none { IsNone result → (n : ℕ) → n < 2 ^ 32 → decimal n ≢ bytes.now }
{
    let number = digits_value(bytes);
    let mut buffer = Buffer::new();
    if buffer.format(number).as_bytes() == bytes {
        Some(number)
    } else {
        None
    }
}

// What the bytes come to as digits in base ten, and 4294967295 where that is more.
fn digits_value(bytes: &[u8]) -> u32
    ensures { result ≡ min (read_on 0 bytes.now) 4294967295 }
{
    let mut number = 0u32;
    for byte in bytes {
        let digit = u32::from(byte.saturating_sub(b'0'));
        number = number.saturating_mul(10).saturating_add(digit);
    }
    number
}
