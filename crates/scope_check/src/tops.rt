ghost use Rattle.std.specs.Prelude.{◌≡◌, [], ◌∷◌, ◌++◌, length, IfOk};
ghost use Rattle.scope_check.specs.Heads.{bound_name, checked_name};
ghost use Rattle.scope_check.specs.Moves.{Bears, GivesTop, GivesTops, scope_in};
ghost use Rattle.scope_names.specs.Shapes.{reaction_now};
ghost use Rattle.scope_check.specs.Tops.{parameters, function_top, behaviour_top, global_top, value_top, malformed_top, top_of, tops_of, top_at, function_stand, outside};
ghost use Rattle.resolved_forms.specs.FormsInRange.{functions_behind};
ghost use Rattle.scope_check.specs.Value.{meaning, meanings};

use crate::resolver::{Resolver, nil_at};
use crate::stand::{Stand, Target};
use core_syntax::{as_number, sum_of};
use resolved_forms::{Reacting, Top, TopForms, TopKind};
use scope_names::{Reaction, Shape, shape_of};
use scope_refusals::ScopeKind;
use std::alloc::AllocError;
use sugar::Core;
use value_core::Place;
use value_core::lists::add;

impl Resolver {
    /// What the top-level forms come to, where functions are numbered from 0.
    pub fn tops(&mut self, forms: &[Core]) -> Result<TopForms, AllocError>
        requires { self.old.locals ≡ [] }
        ensures { IfOk result (GivesTops self.old self.new (tops_of forms.now 0 self.old.definitions self.old.loops)) }
    {
        let mut number = 0;
        let mut tops = TopForms::new(self.alloc);
        for form in forms {
            let top = self.top(form, number)?;
            number = push_top(&mut tops, top, number)?;
        }
        Ok(tops)
    }

    // What a top-level form comes to, where the next function has that number.
    fn top(&mut self, form: &Core, number: u32) -> Result<Top, AllocError>
        requires { self.old.locals ≡ [] }
        ensures { IfOk result (GivesTop self.old self.new (top_of form.now number self.old.definitions self.old.loops)) }
    {
        match shape_of(form) {
            Shape::Function(_, parameters, body) => {
                self.function_top(form.at, number, parameters, body)
            }
            Shape::Behaviour(_, reaction) => self.behaviour_top(form.at, reaction),
            Shape::Global(_, value) => self.global_top(form.at, value),
            Shape::Value => self.value_top(form),
            Shape::Malformed => self.malformed_top(form.at),
        }
    }

    fn function_top(
        &mut self,
        at: Place,
        number: u32,
        parameters: &[Core],
        body: &[Core],
    ) -> Result<Top, AllocError>
        requires { self.old.locals ≡ [] }
        ensures { IfOk result (GivesTop self.old self.new (function_top at number parameters.now body.now self.old.definitions self.old.loops)) }
    {
        let takes = as_number(parameters.len())?;
        let stand = function_stand(number, takes);
        self.parameters(parameters, stand)?;
        let body = self.body(at, body, stand)?;
        self.locals.leave(0);
        Ok(top_at(at, TopKind::Function(takes, body)))
    }

    fn behaviour_top(&mut self, at: Place, reaction: Reaction) -> Result<Top, AllocError>
        requires { self.old.locals ≡ [] }
        ensures { IfOk result (GivesTop self.old self.new (behaviour_top at (reaction_now reaction.entry) self.old.definitions self.old.loops)) }
    {
        let head = Reacting {
            at: reaction.at,
            state: as_number(reaction.state.len())?,
            message: as_number(reaction.message.len())?,
        };
        self.parameters(reaction.state, outside())?;
        self.parameters(reaction.message, outside())?;
        let body = self.body(reaction.at, reaction.body, outside())?;
        self.locals.leave(0);
        Ok(top_at(at, TopKind::Behaviour(head, body)))
    }

    fn global_top(&mut self, at: Place, value: &Core) -> Result<Top, AllocError>
        requires { self.old.locals ≡ [] }
        ensures { IfOk result (GivesTop self.old self.new (global_top at value.now self.old.definitions self.old.loops)) }
    {
        let value = self.value(value, outside())?;
        Ok(top_at(at, TopKind::Global(value)))
    }

    fn value_top(&mut self, form: &Core) -> Result<Top, AllocError>
        requires { self.old.locals ≡ [] }
        ensures { IfOk result (GivesTop self.old self.new (value_top form.now.at form.now self.old.definitions self.old.loops)) }
    {
        let value = self.value(form, outside())?;
        Ok(top_at(form.at, TopKind::Value(value)))
    }

    fn malformed_top(&mut self, at: Place) -> Result<Top, AllocError>
        requires { self.old.locals ≡ [] }
        ensures { IfOk result (GivesTop self.old self.new (malformed_top at self.old.loops)) }
    {
        self.note(ScopeKind::BadForm, at)?;
        Ok(top_at(at, TopKind::Value(nil_at(at))))
    }

    // Binds the names of parameters.
    fn parameters(&mut self, parts: &[Core], stand: Stand) -> Result<(), AllocError>
        ensures { IfOk result (λ _. Bears self.old self.new (parameters (meanings parts.now) (scope_in self.old stand) self.old.loops)) }
    {
        for part in parts {
            let name = self.binder(part, stand)?;
            self.locals.bind(name)?;
        }
        Ok(())
    }
}

// The number of the function behind a form.
fn functions_behind(kind: &TopKind, number: u32) -> Result<u32, AllocError>
    ensures { IfOk result (λ next. next ≡ functions_behind kind.now number) }
{
    match kind {
        TopKind::Function(_, _) => sum_of(number, 1),
        _ => Ok(number),
    }
}

// Appends a form where the next function has that number, and gives the number of the function behind it.
fn push_top(tops: &mut TopForms, top: Top, number: u32) -> Result<u32, AllocError>
    ensures tops { IfOk result (λ _. tops.new ≡ tops.old ++ top ∷ []) }
    ensures next { IfOk result (λ next. next ≡ functions_behind top.kind number) }
{
    match functions_behind(&top.kind, number) {
        Ok(next) => {
            add(tops, top)?;
            Ok(next)
        }
        Err(error) => {
            drop(top);
            Err(error)
        }
    }
}

fn top_at(at: Place, kind: TopKind) -> Top
    ensures { result ≡ top_at at kind }
{
    Top { at, kind }
}

// Where main and the bodies of behaviours stand.
fn outside() -> Stand
    ensures { result ≡ outside }
{
    Stand {
        target: None,
        tail: false,
    }
}

// Where the body of a function stands.
fn function_stand(number: u32, takes: u32) -> Stand
    ensures { result ≡ function_stand number takes }
{
    Stand {
        target: Some(Target { number, takes }),
        tail: true,
    }
}
