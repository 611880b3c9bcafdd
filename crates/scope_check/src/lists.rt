ghost use Rattle.std.specs.Prelude.{◌≡◌, [], ◌∷◌, ◌++◌, Some, IfOk};
ghost use Rattle.scope_check.specs.Heads.{list_value, headed, word_value, op_value, called, special_value, exactly, recur_to, start_value, start_of, started, misplaced, taking};
ghost use Rattle.scope_check.specs.Moves.{Gives, scope_in};
ghost use Rattle.scope_check.specs.Parts.{applied, around, body};
ghost use Rattle.scope_names.specs.Ops.{op_of};
ghost use Rattle.scope_check.specs.Scope.{find_in, inner};
ghost use Rattle.scope_names.specs.Finding.{find};
ghost use Rattle.scope_names.specs.Special.{special_of};
ghost use Rattle.scope_check.specs.Value.{meaning, meanings};

use crate::resolver::{Resolver, expr_at, go_by_turns};
use crate::rule::Rule;
use crate::stand::Stand;
use crate::start::Start;
use resolved_forms::{Expr, ExprKind, Exprs, Head};
use scope_names::{Found, Special, What, op_with, special_named};
use scope_refusals::ScopeKind;
use std::alloc::AllocError;
use sugar::Core;
use value_core::Place;
use value_core::lists::add;
use value_ops::takes;

impl Resolver {
    /// What a list comes to.
    #[cycle(resolve)]
    pub fn list(&mut self, at: Place, parts: &[Core], stand: Stand) -> Result<Expr, AllocError>
        ensures { IfOk result (Gives self.old self.new (list_value at (meanings parts.now) (scope_in self.old stand) self.old.loops)) }
    {
        let [head, parts @ ..] = parts else {
            return self.fail(ScopeKind::BadForm, at);
        };
        match self.name(head)? {
            Some(word) => self.worded(at, head.at, word.items(), parts, stand),
            None => self.misplaced(head, stand),
        }
    }

    // A list whose head is that word.
    #[cycle(resolve)]
    fn worded(
        &mut self,
        at: Place,
        place: Place,
        word: &[u8],
        parts: &[Core],
        stand: Stand,
    ) -> Result<Expr, AllocError>
        ensures { IfOk result (Gives self.old self.new (word_value (special_of word.now) word.now at place (meanings parts.now) (scope_in self.old stand) self.old.loops)) }
    {
        match special_named(word) {
            Some(special) => self.special(special, at, parts, stand),
            None => self.called(at, place, word, parts, stand),
        }
    }

    // A primitive, or a call.
    #[cycle(resolve)]
    fn called(
        &mut self,
        at: Place,
        place: Place,
        word: &[u8],
        parts: &[Core],
        stand: Stand,
    ) -> Result<Expr, AllocError>
        ensures { IfOk result (Gives self.old self.new (op_value (op_of word.now) word.now at place (meanings parts.now) (scope_in self.old stand) self.old.loops)) }
    {
        if let Some(op) = op_with(word) {
            let taken = takes(op, parts.len());
            return self.taking(taken, Head::Op(op), Rule::Plain, at, parts, stand);
        }
        match self.find(word) {
            Found::Defined(What::Function(number, takes)) => {
                self.exactly(takes as usize, Head::Call(number), at, parts, stand)
            }
            Found::Nothing => self.fail(ScopeKind::Unknown, place),
            _ => self.fail(ScopeKind::BadForm, place),
        }
    }

    // The head applied to the parts, where it takes so many.
    #[cycle(resolve)]
    fn taking(
        &mut self,
        taken: bool,
        head: Head,
        rule: Rule,
        at: Place,
        parts: &[Core],
        stand: Stand,
    ) -> Result<Expr, AllocError>
        ensures { IfOk result (Gives self.old self.new (taking taken at (applied head rule at (meanings parts.now) (scope_in self.old stand) self.old.loops) self.old.loops)) }
    {
        if taken {
            self.applied(head, rule, at, parts, stand)
        } else {
            self.fail(ScopeKind::Arity, at)
        }
    }

    #[cycle(resolve)]
    fn exactly(
        &mut self,
        count: usize,
        head: Head,
        at: Place,
        parts: &[Core],
        stand: Stand,
    ) -> Result<Expr, AllocError>
        ensures { IfOk result (Gives self.old self.new (exactly count head at (meanings parts.now) (scope_in self.old stand) self.old.loops)) }
    {
        self.taking(parts.len() == count, head, Rule::Plain, at, parts, stand)
    }

    /// A form that stands where a name has to.
    #[cycle(resolve)]
    pub fn misplaced(&mut self, core: &Core, stand: Stand) -> Result<Expr, AllocError>
        ensures { IfOk result (Gives self.old self.new (misplaced (meaning core.now) (scope_in self.old stand) self.old.loops)) }
    {
        self.note(ScopeKind::BadForm, core.at)?;
        self.value(core, stand.inner())
    }

    // A special form.
    #[cycle(resolve)]
    fn special(
        &mut self,
        special: Special,
        at: Place,
        parts: &[Core],
        stand: Stand,
    ) -> Result<Expr, AllocError>
        ensures { IfOk result (Gives self.old self.new (special_value special at (meanings parts.now) (scope_in self.old stand) self.old.loops)) }
    {
        match special {
            Special::Do => self.applied(Head::Do, Rule::Last, at, parts, stand),
            Special::If => {
                self.taking(parts.len() == 3, Head::If, Rule::Branches, at, parts, stand)
            }
            Special::Let => self.let_form(at, parts, stand),
            Special::Loop => self.loop_form(at, parts, stand),
            Special::Recur => self.recur(at, parts, stand),
            Special::Println => self.applied(Head::Println, Rule::Plain, at, parts, stand),
            Special::Ref => self.exactly(1, Head::Ref, at, parts, stand),
            Special::Deref => self.exactly(1, Head::Deref, at, parts, stand),
            Special::RefSet => self.exactly(2, Head::RefSet, at, parts, stand),
            Special::Fork => self.around(Head::Fork, at, parts, stand),
            Special::Join => self.exactly(1, Head::Join, at, parts, stand),
            Special::Dosync => self.around(Head::Dosync, at, parts, stand),
            Special::Spawn => self.start_form(Start::Spawn, at, parts, stand),
            Special::Become => self.start_form(Start::Become, at, parts, stand),
            Special::Send => {
                self.taking(parts.len() >= 1, Head::Send, Rule::Plain, at, parts, stand)
            }
            Special::SelfActor => self.exactly(0, Head::SelfActor, at, parts, stand),
            Special::Cond => self.cond(at, parts, stand),
            Special::And => self.and(at, parts, stand),
            Special::Or => self.or(at, parts, stand),
            Special::NoExpression => self.fail(ScopeKind::BadForm, at),
        }
    }

    // A fork or a dosync: its body is in no tail position.
    #[cycle(resolve)]
    fn around(
        &mut self,
        head: Head,
        at: Place,
        parts: &[Core],
        stand: Stand,
    ) -> Result<Expr, AllocError>
        ensures { IfOk result (Gives self.old self.new (around at head (body at (meanings parts.now) (scope_in self.old (inner stand)) self.old.loops))) }
    {
        let body = self.body(at, parts, stand.inner())?;
        let mut exprs = Exprs::new(self.alloc);
        add(&mut exprs, body)?;
        Ok(expr_at(at, ExprKind::Apply(head, exprs)))
    }

    #[cycle(resolve)]
    fn cond(&mut self, at: Place, parts: &[Core], stand: Stand) -> Result<Expr, AllocError>
        ensures { IfOk result (Gives self.old self.new (special_value Special.Cond at (meanings parts.now) (scope_in self.old stand) self.old.loops)) }
    {
        if !go_by_turns(parts) {
            return self.fail(ScopeKind::BadForm, at);
        }
        let exprs = self.each(Rule::Results, parts, stand)?;
        Ok(expr_at(at, ExprKind::Cond(exprs)))
    }

    #[cycle(resolve)]
    fn and(&mut self, at: Place, parts: &[Core], stand: Stand) -> Result<Expr, AllocError>
        ensures { IfOk result (Gives self.old self.new (special_value Special.And at (meanings parts.now) (scope_in self.old stand) self.old.loops)) }
    {
        let level = self.locals.depth();
        let exprs = self.each(Rule::Chain, parts, stand)?;
        Ok(expr_at(at, ExprKind::And(level, exprs)))
    }

    #[cycle(resolve)]
    fn or(&mut self, at: Place, parts: &[Core], stand: Stand) -> Result<Expr, AllocError>
        ensures { IfOk result (Gives self.old self.new (special_value Special.Or at (meanings parts.now) (scope_in self.old stand) self.old.loops)) }
    {
        let level = self.locals.depth();
        let exprs = self.each(Rule::Chain, parts, stand)?;
        Ok(expr_at(at, ExprKind::Or(level, exprs)))
    }

    #[cycle(resolve)]
    fn recur(&mut self, at: Place, parts: &[Core], stand: Stand) -> Result<Expr, AllocError>
        ensures { IfOk result (Gives self.old self.new (recur_to stand.target at (meanings parts.now) (scope_in self.old stand) self.old.loops)) }
    {
        let Some(target) = stand.target else {
            return self.fail(ScopeKind::BadForm, at);
        };
        if parts.len() == target.takes as usize && !stand.tail {
            return self.fail(ScopeKind::BadForm, at);
        }
        self.exactly(
            target.takes as usize,
            Head::Call(target.number),
            at,
            parts,
            stand,
        )
    }

    #[cycle(resolve)]
    fn start_form(
        &mut self,
        start: Start,
        at: Place,
        parts: &[Core],
        stand: Stand,
    ) -> Result<Expr, AllocError>
        ensures { IfOk result (Gives self.old self.new (start_value start at (meanings parts.now) (scope_in self.old stand) self.old.loops)) }
    {
        let [name, parts @ ..] = parts else {
            return self.fail(ScopeKind::Arity, at);
        };
        match self.name(name)? {
            Some(word) => self.started(start, at, name.at, word.items(), parts, stand),
            None => self.misplaced(name, stand),
        }
    }

    // A spawn or become of what has that word.
    #[cycle(resolve)]
    fn started(
        &mut self,
        start: Start,
        at: Place,
        place: Place,
        word: &[u8],
        parts: &[Core],
        stand: Stand,
    ) -> Result<Expr, AllocError>
        ensures { IfOk result (Gives self.old self.new (started (find self.old.definitions self.old.locals word.now) start at place (meanings parts.now) (scope_in self.old stand) self.old.loops)) }
    {
        match self.find(word) {
            Found::Defined(What::Behaviour(number, state)) => {
                self.exactly(state as usize, start.head(number), at, parts, stand)
            }
            Found::Nothing => self.fail(ScopeKind::Unknown, place),
            _ => self.fail(ScopeKind::BadForm, place),
        }
    }
}
