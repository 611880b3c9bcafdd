ghost use Rattle.std.specs.Prelude.{◌≡◌, [], ◌∷◌, ◌++◌, OnOk, OnErr};
ghost use Rattle.scope_names.specs.Names.{defined};

use crate::definition::{Definition, What};
use std::alloc::{AllocError, Global};
use std::collections::BTreeMap;
use std::marker::Model;
use value_core::Text;

/// The names of the top level with what they stand for, in the order of their definitions.
#[derive(Drop)]
pub struct Names {
    definitions: Vec<Definition>,
    first: BTreeMap<Vec<u8>, What>,
}

impl Model for Names {
    ghost use Rattle.std.specs.Prelude.{◌≡◌, ℕ, List};
    ghost use Rattle.scope_names.specs.declared.definition.Definition.{Definition};
    ghost use Rattle.scope_locals.specs.ByName.{at_name};
    ghost use Rattle.scope_names.specs.Names.{defined};

    ghost Value = { List Definition };

    ghost view = { λ n. n.definitions.items };

    ghost invariant = { λ n. (name : List ℕ) → at_name n.first name ≡ defined n.definitions.items name };
}

impl Names {
    pub fn new(alloc: Global) -> Self
        ensures { result ≡ [] }
    {
        Names {
            definitions: Vec::new(alloc),
            first: BTreeMap::new(alloc),
        }
    }

    /// Adds a definition. Where the name has one already, that one counts. For want of memory the names stay.
    pub fn add(&mut self, alloc: Global, name: Text, what: What) -> Result<(), AllocError>
        ensures ok { OnOk result (self.new ≡ self.old ++ record { name = name; what = what } ∷ []) }
        ensures err { OnErr result (self.new ≡ self.old) }
    {
        if self.first.contains_key(name.items()) {
            self.definitions.push(Definition { name, what })?;
            return Ok(());
        }
        let key = Vec::from_slice(alloc, name.items())?;
        self.definitions.push(Definition { name, what })?;
        match self.first.insert(key, what) {
            Ok(_) => Ok(()),
            Err(_) => {
                self.definitions.pop();
                Err(AllocError)
            }
        }
    }

    /// What the name stands for: the first definition counts.
    pub fn find(&self, name: &[u8]) -> Option<What>
        ensures { result ≡ defined self.now name.now }
    {
        self.first.get(name).copied()
    }
}
