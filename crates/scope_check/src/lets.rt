ghost use Rattle.std.specs.Prelude.{◌≡◌, ◌+◌, [], ◌∷◌, ◌++◌, Some, IfOk};
ghost use Rattle.scope_check.specs.Heads.{bound, bound_name, checked_name, let_value, let_with, let_in, loop_value, loop_with, loop_in, loop_stand, bindings_of};
ghost use Rattle.scope_check.specs.Moves.{Begins, Gives, BindsAll, BindsOne, NamesOne, scope_in};
ghost use Rattle.scope_check.specs.Parts.{body};
ghost use Rattle.resolved_forms.specs.InRange.{expr_at};
ghost use Rattle.scope_check.specs.Scope.{inner};
ghost use Rattle.scope_check.specs.Value.{meaning, meanings};

use crate::resolver::{Resolver, expr_at};
use crate::stand::{Stand, Target};
use core_syntax::as_number;
use resolved_forms::{Expr, ExprKind, Exprs, Looping};
use scope_refusals::ScopeKind;
use std::alloc::AllocError;
use sugar::{Core, CoreKind};
use value_core::lists::add;
use value_core::{Place, Text};

/// What a loop begins with: its own function, where its body stands, and the initial expressions.
#[derive(Drop)]
pub struct Begun {
    own: Looping,
    inside: Stand,
    exprs: Exprs,
}

impl Begun {
    // The loop, with that body.
    fn end(self, at: Place, body: Expr) -> Result<Expr, AllocError>
        ensures { IfOk result (λ expr. expr ≡ expr_at at (ExprKind.Loop self.own (self.exprs ++ body ∷ []))) }
    {
        let mut exprs = self.exprs;
        add(&mut exprs, body)?;
        Ok(expr_at(at, ExprKind::Loop(self.own, exprs)))
    }
}

impl Resolver {
    #[cycle(resolve)]
    pub fn let_form(&mut self, at: Place, parts: &[Core], stand: Stand) -> Result<Expr, AllocError>
        ensures { IfOk result (Gives self.old self.new (let_value at (meanings parts.now) (scope_in self.old stand) self.old.loops)) }
    {
        let [first, parts @ ..] = parts else {
            return self.fail(ScopeKind::Arity, at);
        };
        let CoreKind::Vector(bindings) = &first.kind else {
            return self.fail(ScopeKind::BadForm, at);
        };
        if bindings.items().len() % 2 != 0 {
            return self.fail(ScopeKind::BadForm, first.at);
        }
        let depth = self.locals.depth();
        let mut exprs = self.bound(bindings.items(), stand)?;
        let body = self.body(at, parts, stand)?;
        self.locals.leave(depth);
        add(&mut exprs, body)?;
        Ok(expr_at(at, ExprKind::Let(exprs)))
    }

    #[cycle(resolve)]
    pub fn loop_form(&mut self, at: Place, parts: &[Core], stand: Stand) -> Result<Expr, AllocError>
        ensures { IfOk result (Gives self.old self.new (loop_value at (meanings parts.now) (scope_in self.old stand) self.old.loops)) }
    {
        let [first, parts @ ..] = parts else {
            return self.fail(ScopeKind::Arity, at);
        };
        let CoreKind::Vector(bindings) = &first.kind else {
            return self.fail(ScopeKind::BadForm, at);
        };
        if bindings.items().len() % 2 != 0 {
            return self.fail(ScopeKind::BadForm, first.at);
        }
        let depth = self.locals.depth();
        let begun = self.begin(bindings.items(), stand)?;
        let body = self.body(at, parts, begun.inside)?;
        self.locals.leave(depth);
        begun.end(at, body)
    }

    // Binds what a loop begins with.
    #[cycle(resolve)]
    fn begin(&mut self, parts: &[Core], stand: Stand) -> Result<Begun, AllocError>
        ensures { IfOk result (Begins self.old self.new stand (bound (meanings parts.now) (scope_in self.old stand) (self.old.loops + 1))) }
    {
        let number = self.next_loop()?;
        let base = self.locals.depth();
        let exprs = self.bound(parts, stand)?;
        let arguments = self.locals.innermost_from(self.alloc, base)?;
        let own = Looping {
            number,
            base,
            arguments,
        };
        let inside = loop_stand(&own)?;
        Ok(Begun { own, inside, exprs })
    }

    // Binds names to expressions, which go by turns.
    #[cycle(resolve)]
    fn bound(&mut self, parts: &[Core], stand: Stand) -> Result<Exprs, AllocError>
        ensures { IfOk result (BindsAll self.old self.new (bound (meanings parts.now) (scope_in self.old stand) self.old.loops)) }
    {
        let mut exprs = Exprs::new(self.alloc);
        for index in 0..parts.len() / 2 {
            let name = self.binder(&parts[2 * index], stand)?;
            let expr = self.bind(name, &parts[2 * index + 1], stand)?;
            add(&mut exprs, expr)?;
        }
        Ok(exprs)
    }

    // Binds a name to an expression.
    #[cycle(resolve)]
    fn bind(&mut self, name: Text, value: &Core, stand: Stand) -> Result<Expr, AllocError>
        ensures { IfOk result (BindsOne self.old self.new name ((meaning value.now).value (scope_in self.old (inner stand)) self.old.loops)) }
    {
        let expr = self.value(value, stand.inner())?;
        self.locals.bind(name)?;
        Ok(expr)
    }

    // The name that a binding or a parameter gives.
    #[cycle(resolve)]
    pub fn binder(&mut self, binder: &Core, stand: Stand) -> Result<Text, AllocError>
        ensures { IfOk result (NamesOne self.old self.new (bound_name (meaning binder.now).name) (checked_name (meaning binder.now).name (meaning binder.now) (scope_in self.old stand) self.old.loops)) }
    {
        match self.name(binder)? {
            Some(name) => Ok(name),
            None => {
                let _ = self.misplaced(binder, stand)?;
                Ok(Text::new(self.alloc))
            }
        }
    }
}

// Where the body of a loop stands: it is a function of its own.
fn loop_stand(own: &Looping) -> Result<Stand, AllocError>
    ensures { IfOk result (λ stand. stand ≡ loop_stand own.now) }
{
    let takes = as_number(own.arguments.items().len())?;
    let target = Target {
        number: own.number,
        takes,
    };
    Ok(Stand {
        target: Some(target),
        tail: true,
    })
}
