ghost use Rattle.std.specs.Prelude.{◌≡◌, ◌+◌, if◌then◌else◌, IfOk, OnOk, [], ◌∷◌, ◌++◌, length};
ghost use Rattle.scope_check.specs.Declaring.{declare, declare_all, declare_shape, taken, twice, with_function, with_behaviour, with_global, nothing};
ghost use Rattle.scope_names.specs.Finding.{is_reserved};

use core_syntax::{as_number, sum_of};
use scope_names::{Names, Shape, What, is_reserved, shape_of};
use scope_refusals::{Refusal, Refusals, ScopeKind};
use std::alloc::{AllocError, Global};
use sugar::{Core, Tops};
use value_core::lists::add;
use value_core::{Place, Text};

/// The names that the top-level forms define, how many of each kind, and what is wrong with them.
#[derive(Drop)]
pub struct Declared {
    pub definitions: Names,
    pub functions: u32,
    pub behaviours: u32,
    pub globals: u32,
    pub refusals: Refusals,
}

/// What the forms define.
pub fn declare_all(alloc: Global, forms: &Tops) -> Result<Declared, AllocError>
    ensures { IfOk result (λ declared. declared ≡ declare_all forms.now nothing) }
{
    let mut declared = Declared {
        definitions: Names::new(alloc),
        functions: 0,
        behaviours: 0,
        globals: 0,
        refusals: Refusals::new(alloc),
    };
    for form in forms.items() {
        declared.declare(alloc, form)?;
    }
    Ok(declared)
}

impl Declared {
    // Takes what the next form defines.
    fn declare(&mut self, alloc: Global, form: &Core) -> Result<(), AllocError>
        ensures { OnOk result (self.new ≡ declare form.now self.old) }
    {
        match shape_of(form) {
            Shape::Function(name, parameters, _) => {
                self.function(alloc, form.at, name, parameters.len())
            }
            Shape::Behaviour(name, reaction) => {
                self.behaviour(alloc, form.at, name, reaction.state.len())
            }
            Shape::Global(name, _) => self.global(alloc, form.at, name),
            Shape::Value | Shape::Malformed => Ok(()),
        }
    }

    fn function(
        &mut self,
        alloc: Global,
        at: Place,
        name: &[u8],
        takes: usize,
    ) -> Result<(), AllocError>
        ensures { OnOk result (self.new ≡ if taken name.now self.old then twice at self.old else with_function name.now takes self.old) }
    {
        if self.is_taken(name) {
            return self.twice(at);
        }
        let what = What::Function(self.functions, as_number(takes)?);
        self.definitions
            .add(alloc, Text::from_bytes(alloc, name)?, what)?;
        self.functions = sum_of(self.functions, 1)?;
        Ok(())
    }

    fn behaviour(
        &mut self,
        alloc: Global,
        at: Place,
        name: &[u8],
        state: usize,
    ) -> Result<(), AllocError>
        ensures { OnOk result (self.new ≡ if taken name.now self.old then twice at self.old else with_behaviour name.now state self.old) }
    {
        if self.is_taken(name) {
            return self.twice(at);
        }
        let what = What::Behaviour(self.behaviours, as_number(state)?);
        self.definitions
            .add(alloc, Text::from_bytes(alloc, name)?, what)?;
        self.behaviours = sum_of(self.behaviours, 1)?;
        Ok(())
    }

    fn global(&mut self, alloc: Global, at: Place, name: &[u8]) -> Result<(), AllocError>
        ensures { OnOk result (self.new ≡ if taken name.now self.old then twice at self.old else with_global name.now self.old) }
    {
        if self.is_taken(name) {
            return self.twice(at);
        }
        let what = What::Global(self.globals);
        self.definitions
            .add(alloc, Text::from_bytes(alloc, name)?, what)?;
        self.globals = sum_of(self.globals, 1)?;
        Ok(())
    }

    // Whether the name is defined already, or a reserved word.
    fn is_taken(&self, name: &[u8]) -> bool
        ensures { result ≡ taken name.now self.now }
    {
        is_reserved(name) || self.definitions.find(name).is_some()
    }

    fn twice(&mut self, at: Place) -> Result<(), AllocError>
        ensures { OnOk result (self.new ≡ twice at self.old) }
    {
        let kind = ScopeKind::Twice;
        add(&mut self.refusals, Refusal { kind, at })
    }
}
