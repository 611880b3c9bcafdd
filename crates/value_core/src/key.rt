ghost use Rattle.std.specs.Prelude.{◌≡◌, ◌↔◌, IfOk, IsTrue};
ghost use Rattle.value_core.specs.Key.{key_cmp, kind_of, bool_of, int_of, bytes_of};

use crate::Text;
use std::alloc::{AllocError, Global};
use std::cmp::Ordering;

/// What a map can be asked for: a boolean, an integer, a keyword or a string.
#[derive(Drop)]
pub enum Key {
    Bool(bool),
    Int(i64),
    Kw(Text),
    Str(Text),
}

impl Key {
    /// How this key stands to the other: booleans come first, then integers, keywords and strings; inside a kind false
    /// is first, and the rest go by value and by bytes. It takes no memory.
    #[tactic(auto, unfolding(crate::specs::Key::key_cmp))]
    pub fn cmp(&self, other: &Key) -> Ordering
        ensures { result ≡ key_cmp self.now other.now }
    {
        self.kind()
            .cmp(&other.kind())
            .then(self.bool().cmp(&other.bool()))
            .then(self.int().cmp(&other.int()))
            .then(self.bytes().cmp(&other.bytes()))
    }

    /// Whether the two are the same key. It takes no memory.
    pub fn equal(&self, other: &Key) -> bool
        ensures { IsTrue result ↔ (self.now ≡ other.now) }
    {
        self.cmp(other).is_eq()
    }

    // Where the kind of the key stands among the kinds.
    fn kind(&self) -> u8
        ensures { result ≡ kind_of self.now }
    {
        match self {
            Key::Bool(_) => 0,
            Key::Int(_) => 1,
            Key::Kw(_) => 2,
            Key::Str(_) => 3,
        }
    }

    // A boolean's value, and false for the other kinds.
    fn bool(&self) -> bool
        ensures { result ≡ bool_of self.now }
    {
        match self {
            Key::Bool(value) => *value,
            _ => false,
        }
    }

    // An integer's value, and 0 for the other kinds.
    fn int(&self) -> i64
        ensures { result ≡ int_of self.now }
    {
        match self {
            Key::Int(value) => *value,
            _ => 0,
        }
    }

    // The bytes of a keyword or a string, and none for the other kinds.
    fn bytes(&self) -> &[u8]
        ensures { result.now ≡ bytes_of self.now }
    {
        match self {
            Key::Kw(text) | Key::Str(text) => text.items(),
            _ => &[],
        }
    }

    /// An equal key.
    pub fn copy(&self, alloc: Global) -> Result<Key, AllocError>
        ensures { IfOk result (λ key. key ≡ self.now) }
    {
        match self {
            Key::Bool(b) => Ok(Key::Bool(*b)),
            Key::Int(n) => Ok(Key::Int(*n)),
            Key::Kw(text) => Ok(Key::Kw(text.copy(alloc)?)),
            Key::Str(text) => Ok(Key::Str(text.copy(alloc)?)),
        }
    }
}
