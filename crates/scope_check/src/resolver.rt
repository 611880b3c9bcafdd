ghost use Rattle.std.specs.Prelude.{◌≡◌, ◌+◌, ◌%◌, ◌==◌, [], ◌∷◌, ◌++◌, length, Some, IfOk, OnOk};
ghost use Rattle.scope_check.specs.Heads.{formed, misplaced};
ghost use Rattle.scope_check.specs.Moves.{Gives, GivesAll, Moves, Passes, scope_in};
ghost use Rattle.scope_names.specs.Names.{defined, made_name};
ghost use Rattle.scope_check.specs.Parts.{each, applied, body, around};
ghost use Rattle.scope_check.specs.Resolved.{nil_at, resolved, failed, refusal};
ghost use Rattle.resolved_forms.specs.InRange.{expr_at};
ghost use Rattle.scope_names.specs.Finding.{find, found_reserved, is_reserved};
ghost use Rattle.scope_check.specs.Value.{meaning, meanings, found_value, map_of, bad_kind};

use crate::rule::Rule;
use crate::stand::Stand;
use core_syntax::sum_of;
use itoa::Buffer;
use resolved_forms::{Expr, ExprKind, Exprs, Head};
use scope_names::{Found, Locals, Names, What, find};
use scope_refusals::{Refusal, Refusals, ScopeKind};
use std::alloc::{AllocError, Global};
use sugar::{BadKind, Core, CoreKind};
use value_core::lists::add;
use value_core::{Place, Text};

/// What resolves core forms: the definitions, the locals at the place where it stands, the number of the next loop, and
/// what is wrong so far.
#[derive(Drop)]
pub struct Resolver {
    pub alloc: Global,
    pub definitions: Names,
    pub locals: Locals,
    pub loops: u32,
    pub refusals: Refusals,
}

impl Resolver {
    /// What the core form comes to as an expression.
    #[cycle(resolve)]
    pub fn value(&mut self, core: &Core, stand: Stand) -> Result<Expr, AllocError>
        ensures { IfOk result (Gives self.old self.new ((meaning core.now).value (scope_in self.old stand) self.old.loops)) }
    {
        let at = core.at;
        match &core.kind {
            CoreKind::Nil => Ok(expr_at(at, ExprKind::Nil)),
            CoreKind::Bool(value) => Ok(expr_at(at, ExprKind::Bool(*value))),
            CoreKind::Int(value) => Ok(expr_at(at, ExprKind::Int(*value))),
            CoreKind::Str(text) => Ok(expr_at(at, ExprKind::Str(text.copy(self.alloc)?))),
            CoreKind::Kw(name) => Ok(expr_at(at, ExprKind::Kw(name.copy(self.alloc)?))),
            CoreKind::Sym(name) => self.named(at, name.items()),
            CoreKind::Fresh(number) => self.made(at, *number),
            CoreKind::List(parts) => self.list(at, parts.items(), stand),
            CoreKind::Vector(parts) => {
                self.applied(Head::Vector, Rule::Plain, at, parts.items(), stand)
            }
            CoreKind::Map(parts) => self.map(at, parts.items(), stand),
            CoreKind::Bad(kind) => self.fail(bad_kind(*kind), at),
        }
    }

    /// What a name comes to as an expression.
    fn named(&mut self, at: Place, name: &[u8]) -> Result<Expr, AllocError>
        ensures { IfOk result (Gives self.old self.new (found_value (find self.old.definitions self.old.locals name.now) at self.old.loops)) }
    {
        match self.find(name) {
            Found::Local(level) => Ok(expr_at(at, ExprKind::Local(level))),
            Found::Defined(What::Global(number)) => Ok(expr_at(at, ExprKind::Global(number))),
            Found::Nothing => self.fail(ScopeKind::Unknown, at),
            _ => self.fail(ScopeKind::BadForm, at),
        }
    }

    // What a made name comes to.
    fn made(&mut self, at: Place, number: u32) -> Result<Expr, AllocError>
        ensures { IfOk result (Gives self.old self.new (found_value (find self.old.definitions self.old.locals (made_name number)) at self.old.loops)) }
    {
        let name = made_name(self.alloc, number)?;
        self.named(at, name.items())
    }

    /// What the name stands for here.
    pub fn find(&self, name: &[u8]) -> Found
        ensures { result ≡ find self.now.definitions self.now.locals name.now }
    {
        find(&self.definitions, &self.locals, name)
    }

    /// The name that a core form is, if it is one.
    pub fn name(&self, core: &Core) -> Result<Option<Text>, AllocError>
        ensures { IfOk result (λ name. name ≡ (meaning core.now).name) }
    {
        match &core.kind {
            CoreKind::Sym(name) => Ok(Some(name.copy(self.alloc)?)),
            CoreKind::Fresh(number) => Ok(Some(made_name(self.alloc, *number)?)),
            _ => Ok(None),
        }
    }

    // A map, whose keys and values go by turns.
    #[cycle(resolve)]
    fn map(&mut self, at: Place, parts: &[Core], stand: Stand) -> Result<Expr, AllocError>
        ensures { IfOk result (Gives self.old self.new ((map_of (meanings parts.now) at).value (scope_in self.old stand) self.old.loops)) }
    {
        if !go_by_turns(parts) {
            return self.fail(ScopeKind::BadForm, at);
        }
        self.applied(Head::Map, Rule::Plain, at, parts, stand)
    }

    /// The number of the next loop, which is then counted.
    pub fn next_loop(&mut self) -> Result<u32, AllocError>
        ensures { IfOk result (λ number. (number ≡ self.old.loops) × Moves self.old self.new (self.old.loops + 1) []) }
    {
        let number = self.loops;
        self.loops = sum_of(number, 1)?;
        Ok(number)
    }

    /// What several forms side by side come to.
    #[cycle(resolve)]
    pub fn each(&mut self, rule: Rule, parts: &[Core], stand: Stand) -> Result<Exprs, AllocError>
        ensures { IfOk result (GivesAll self.old self.new (each rule 0 (scope_in self.old stand) (meanings parts.now) self.old.loops)) }
    {
        let depth = self.locals.depth();
        let mut exprs = Exprs::new(self.alloc);
        for (index, part) in parts.iter().enumerate() {
            let is_last = index + 1 == parts.len();
            let expr = self.value(part, rule.stand_of(index, is_last, stand))?;
            add(&mut exprs, expr)?;
            self.pass(rule)?;
        }
        self.locals.leave(depth);
        Ok(exprs)
    }

    /// In a chain each part is a local without a name for those behind it.
    fn pass(&mut self, rule: Rule) -> Result<(), AllocError>
        ensures { OnOk result (Passes rule self.old self.new) }
    {
        match rule {
            Rule::Chain => self.locals.bind(Text::new(self.alloc)),
            _ => Ok(()),
        }
    }

    /// The head applied to what the forms come to.
    #[cycle(resolve)]
    pub fn applied(
        &mut self,
        head: Head,
        rule: Rule,
        at: Place,
        parts: &[Core],
        stand: Stand,
    ) -> Result<Expr, AllocError>
        ensures { IfOk result (Gives self.old self.new (applied head rule at (meanings parts.now) (scope_in self.old stand) self.old.loops)) }
    {
        let exprs = self.each(rule, parts, stand)?;
        Ok(expr_at(at, ExprKind::Apply(head, exprs)))
    }

    /// What a body comes to.
    #[cycle(resolve)]
    pub fn body(&mut self, at: Place, parts: &[Core], stand: Stand) -> Result<Expr, AllocError>
        ensures { IfOk result (Gives self.old self.new (body at (meanings parts.now) (scope_in self.old stand) self.old.loops)) }
    {
        match parts {
            [] => Ok(nil_at(at)),
            [part] => self.value(part, stand),
            _ => self.applied(Head::Do, Rule::Last, at, parts, stand),
        }
    }

    /// Notes that something is wrong. The answer is no expression.
    pub fn fail(&mut self, kind: ScopeKind, at: Place) -> Result<Expr, AllocError>
        ensures { IfOk result (Gives self.old self.new (failed kind at self.old.loops)) }
    {
        self.note(kind, at)?;
        Ok(nil_at(at))
    }

    pub fn note(&mut self, kind: ScopeKind, at: Place) -> Result<(), AllocError>
        ensures { OnOk result (Moves self.old self.new self.old.loops (refusal kind at ∷ [])) }
    {
        add(&mut self.refusals, Refusal { kind, at })
    }
}

pub fn expr_at(at: Place, kind: ExprKind) -> Expr
    ensures { result ≡ expr_at at kind }
{
    Expr { at, kind }
}

pub fn nil_at(at: Place) -> Expr
    ensures { result ≡ nil_at at }
{
    expr_at(at, ExprKind::Nil)
}

/// Whether the parts go by turns, as keys and values do, or tests and results.
pub fn go_by_turns(parts: &[Core]) -> bool
    ensures { result ≡ (length parts.now % 2 == 0) }
{
    parts.len() % 2 == 0
}

fn bad_kind(kind: BadKind) -> ScopeKind
    ensures { result ≡ bad_kind kind }
{
    match kind {
        BadKind::Arity => ScopeKind::Arity,
        BadKind::BadForm => ScopeKind::BadForm,
    }
}

// The name of a made local.
fn made_name(alloc: Global, number: u32) -> Result<Text, AllocError>
    ensures { IfOk result (λ name. name ≡ made_name number) }
{
    let mut name = Text::from_bytes(alloc, b"#")?;
    let mut buffer = Buffer::new();
    name.extend(buffer.format(number).as_bytes())?;
    Ok(name)
}
