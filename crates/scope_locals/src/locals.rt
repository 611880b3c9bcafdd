ghost use Rattle.std.specs.Prelude.{◌≡◌, ◌≤◌, ◌-◌, [], ◌∷◌, ◌++◌, ℕ, List, length, take, drop, IsSome, IfOk, OnOk, OnErr};
ghost use Rattle.std.specs.Map.{update};
ghost use Rattle.std.specs.Str.{bytes_eq};
ghost use Rattle.scope_locals.specs.ByName.{at_name};
ghost use Rattle.scope_locals.specs.Innermost.{innermost, levels_of};

use core_syntax::sum_of;
use std::alloc::{AllocError, Global};
use std::collections::BTreeMap;
use std::marker::Model;
use value_core::lists::add;
use value_core::{Seq, Text};

/// The locals that are bound at a place, from the outermost to the innermost. One without a name has the empty name.
#[derive(Drop)]
pub struct Locals {
    locals: Vec<Local>,
    levels: BTreeMap<Vec<u8>, u32>,
    count: u32,
}

/// A local, and the level of the one with its name that it hides.
#[derive(Drop)]
struct Local {
    name: Text,
    hidden: Option<u32>,
}

impl Model for Locals {
    ghost use Rattle.std.specs.Prelude.{◌≡◌, ℕ, List, length};

    ghost Value = { List (List ℕ) };

    ghost use Rattle.scope_locals.specs.Levels.{AreLevels, names_of};

    ghost view = { λ l. names_of l.locals.items };

    ghost invariant = { λ l. (l.count ≡ length l.locals.items) × AreLevels l.locals.items l.levels };
}

impl Locals {
    pub fn new(alloc: Global) -> Self
        ensures { result ≡ [] }
    {
        Locals {
            locals: Vec::new(alloc),
            levels: BTreeMap::new(alloc),
            count: 0,
        }
    }

    /// How many locals there are, which is the level of the next one.
    pub fn depth(&self) -> u32
        ensures { result ≡ length self.now }
    {
        self.count
    }

    /// Binds one more. For want of memory the locals stay.
    pub fn bind(&mut self, name: Text) -> Result<(), AllocError>
        ensures ok { OnOk result (self.new ≡ self.old ++ name ∷ []) }
        ensures err { OnErr result (self.new ≡ self.old) }
    {
        let count = sum_of(self.count, 1)?;
        let key = Vec::from_slice(*self.locals.allocator(), name.items())?;
        let hidden = self.levels.get(name.items()).copied();
        self.locals.push(Local { name, hidden })?;
        match self.levels.insert(key, self.count) {
            Ok(_) => {
                self.count = count;
                Ok(())
            }
            Err(_) => {
                self.locals.pop();
                Err(AllocError)
            }
        }
    }

    /// Leaves all but the outermost `depth` locals.
    pub fn leave(&mut self, depth: u32)
        requires { depth ≤ length self.old }
        ensures { self.new ≡ take depth self.old }
    {
        while self.count > depth {
            self.leave_one();
        }
    }

    /// Leaves the innermost local, where there is one.
    fn leave_one(&mut self)
        ensures { self.new ≡ take (length self.old - 1) self.old }
    {
        if let Some(local) = self.locals.pop() {
            restore(&mut self.levels, local.name.items(), local.hidden);
            self.count -= 1;
        }
    }

    /// The level of the innermost local with that name.
    pub fn find(&self, name: &[u8]) -> Option<u32>
        ensures { result ≡ innermost self.now name.now }
    {
        self.levels.get(name).copied()
    }

    /// For each local from that level on, the level of the innermost one with its name.
    pub fn innermost_from(&self, alloc: Global, level: u32) -> Result<Seq<u32>, AllocError>
        requires { level ≤ length self.now }
        ensures { IfOk result (λ levels. levels ≡ levels_of self.now (drop level self.now)) }
    {
        let mut levels = Seq::new(alloc);
        for local in &self.locals[level as usize..] {
            let level = self.find(local.name.items()).unwrap_or(0);
            add(&mut levels, level)?;
        }
        Ok(levels)
    }
}

/// Gives the name, which has a level, the one that was hidden, or none.
fn restore(levels: &mut BTreeMap<Vec<u8>, u32>, name: &[u8], hidden: Option<u32>)
    requires { IsSome (at_name levels.old name.now) }
    ensures { (other : List ℕ) → at_name levels.new other ≡ update bytes_eq (at_name levels.old) name.now hidden other }
{
    match hidden {
        Some(hidden) => {
            if let Some(level) = levels.get_mut(name) {
                *level = hidden;
            }
        }
        None => {
            levels.remove(name);
        }
    }
}
