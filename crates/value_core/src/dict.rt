ghost use Rattle.std.specs.Prelude.{◌≡◌, [], ◌∷◌, ◌++◌, T, OnOk, OnErr, IfOk, IfErr, IsOk, IsSome};
ghost use Rattle.std.specs.Option.{option_copied};
ghost use Rattle.value_core.specs.Pairs.{keys_rise, find_key, put_key, without_key, pair_of, IsPlaceOf, IsGapFor};

use crate::{Key, Pair, Value};
use std::alloc::{AllocError, Global};
use std::marker::Model;

/// A map whose keys rise in the order of keys, so that equal maps have equal lists of pairs.
#[derive(Drop)]
pub struct Dict<V> {
    pairs: Vec<Pair<V>>,
}

impl<V> Model for Dict<V> {
    ghost use Rattle.std.specs.Prelude.{List, T};
    ghost use Rattle.std.specs.Coded.{coded_list};
    ghost use Rattle.value_core.specs.declared.pair.Pair.{Pair};
    ghost use Rattle.value_core.specs.Pairs.{pair_code, keys_rise};

    ghost Value = { List (Pair V) };

    ghost coded = { coded_list (pair_code V.code) };

    ghost view = { λ a. a.pairs.items };

    ghost invariant = { λ a. T (keys_rise a.pairs.items) };
}

/// The pairs of a map value.
pub type Pairs = Dict<Value>;

impl<V> Dict<V> {
    /// The empty map. It takes no memory.
    pub fn new(alloc: Global) -> Self
        ensures { result ≡ [] }
    {
        Dict {
            pairs: Vec::new(alloc),
        }
    }

    /// The pairs in the order of their keys.
    pub fn items(&self) -> &[Pair<V>]
        ensures value { result.now ≡ self.now }
        ensures rising { T (keys_rise self.now) }
    {
        self.pairs.as_slice()
    }

    /// Makes room for `more` further pairs, or finds no memory. The pairs stay.
    pub fn reserve(&mut self, more: usize) -> Result<(), AllocError>
        ensures { self.new ≡ self.old }
    {
        self.pairs.reserve(more)
    }

    /// The value of the key, if it is there. It takes no memory, and looks at about as many keys as the number of pairs
    /// has binary digits.
    pub fn get(&self, key: &Key) -> Option<&V>
        ensures { option_copied result ≡ find_key key.now self.now }
    {
        match self.search(key) {
            Ok(at) => Some(&self.pairs[at].value),
            Err(_) => None,
        }
    }

    // Where the key is, or where it would go.
    fn search(&self, key: &Key) -> Result<usize, usize>
        ensures found { IfOk result (IsPlaceOf self.now key.now) }
        ensures absent { IfErr result (IsGapFor self.now key.now) }
    {
        self.pairs.binary_search_by(|pair| pair.key.cmp(key))
    }
}

impl<V: Drop> Dict<V> {
    /// Sets the value of the key, or adds the pair in its place. For want of memory the map stays as it was; where the
    /// key is there already, none is taken.
    pub fn put(&mut self, key: Key, value: V) -> Result<(), AllocError>
        ensures ok { OnOk result (self.new ≡ put_key key value self.old) }
        ensures err { OnErr result (self.new ≡ self.old) }
        ensures present { IsSome (find_key key self.old) → IsOk result }
    {
        match self.search(&key) {
            Ok(at) => {
                self.pairs[at] = Pair { key, value };
                Ok(())
            }
            Err(at) => Ok(self.pairs.insert(at, Pair { key, value })?),
        }
    }

    // Appends the pair, whose key is after all others. For want of memory the map stays as it was.
    pub(crate) fn append(&mut self, key: Key, value: V) -> Result<(), AllocError>
        requires { T (keys_rise (self.old ++ pair_of key value ∷ [])) }
        ensures ok { OnOk result (self.new ≡ self.old ++ pair_of key value ∷ []) }
        ensures err { OnErr result (self.new ≡ self.old) }
    {
        self.pairs.push(Pair { key, value })?;
        Ok(())
    }

    /// Takes the key out and answers its value, if it was there. It takes no memory.
    pub fn remove(&mut self, key: &Key) -> Option<V>
        ensures value { result ≡ find_key key.now self.old }
        ensures rest { self.new ≡ without_key key.now self.old }
    {
        match self.search(key) {
            Ok(at) => {
                let Pair { key: _, value } = self.pairs.remove(at);
                Some(value)
            }
            Err(_) => None,
        }
    }
}
