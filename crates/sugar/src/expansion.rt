ghost use Rattle.std.specs.Prelude.{◌≡◌, ◌+◌, ℕ, [], ◌∷◌, ◌++◌, map, IfOk};
ghost use Rattle.sugar.specs.Meaning.{Gives, core_at, cores, made_in, list, symbol as symbol_meaning};
ghost use Rattle.sugar.specs.Expansion.{meaning, expanded, of_list, sugar_in, sugar_named};
ghost use Rattle.sugar.specs.Sugar.{of_if, of_body, of_when, of_keyword, of_alter, callee, bindings as bindings_of, names as names_of};
ghost use Rattle.sugar.specs.declared.core_form.CoreKind.TheVariants.{Fresh as FreshKind};

use crate::core_form::{BadKind, Core, CoreKind, Cores, Tops};
use crate::parts::{call_of, headed, let_of, symbol};
use crate::words::is_form_word;
use sexpr_reader::{Form, FormKind, Forms};
use std::alloc::{AllocError, Global};
use value_core::lists::add;
use value_core::{Place, Seq};

/// The core forms of a source's forms, in their order: the shorthands are written out, and the names that they make
/// are numbered from 0 over the whole source. A shorthand that is malformed is `Bad` at its place.
///
/// `AllocError` is answered for want of memory, and for 2^32 made names, which no source is long enough to have.
pub fn expand(alloc: Global, forms: &Forms) -> Result<Tops, AllocError>
    ensures { IfOk result (λ tops. tops ≡ expanded forms.now) }
{
    let mut expander = Expander { alloc, next: 0 };
    expander.cores(forms.items())
}

/// What a list may be a shorthand for.
#[derive(Clone, Copy)]
enum Sugar {
    /// Nothing: it is a list as it is written.
    Plain,
    /// An `if`, which may have no third argument.
    If,
    /// A `when`.
    When,
    /// A keyword before a map.
    Lookup,
    /// An `alter`.
    Alter,
}

/// What expands forms, and the number of the next name that is made.
#[derive(Drop)]
struct Expander {
    alloc: Global,
    next: u32,
}

impl Expander {
    /// The core form of this form.
    #[cycle(expand)]
    fn form(&mut self, form: &Form) -> Result<Core, AllocError>
        ensures { IfOk result (Gives (meaning form.now) self.old.next self.new.next) }
    {
        let at = form.at;
        match &form.kind {
            FormKind::Nil => Ok(Core::new(at, CoreKind::Nil)),
            FormKind::Bool(value) => Ok(Core::new(at, CoreKind::Bool(*value))),
            FormKind::Int(value) => Ok(Core::new(at, CoreKind::Int(*value))),
            FormKind::Str(text) => Ok(Core::new(at, CoreKind::Str(text.copy(self.alloc)?))),
            FormKind::Kw(name) => Ok(Core::new(at, CoreKind::Kw(name.copy(self.alloc)?))),
            FormKind::Sym(name) => symbol(self.alloc, at, name.items()),
            FormKind::List(parts) => self.list(at, parts.items()),
            FormKind::Vector(parts) => Ok(Core::new(
                at,
                CoreKind::Vector(self.cores(parts.items())?),
            )),
            FormKind::Map(parts) => Ok(Core::new(at, CoreKind::Map(self.cores(parts.items())?))),
            FormKind::At(parts) => self.behind(at, b"deref", parts.items()),
        }
    }

    /// The core forms of these forms.
    #[cycle(expand)]
    fn cores(&mut self, forms: &[Form]) -> Result<Cores, AllocError>
        ensures cores { IfOk result (λ parts. parts ≡ cores (map meaning forms.now) self.old.next) }
        ensures next { IfOk result (λ _. self.new.next ≡ self.old.next + made_in (map meaning forms.now)) }
    {
        let mut parts = Seq::new(self.alloc);
        self.push_forms(forms, &mut parts)?;
        Ok(parts)
    }

    /// Puts the core forms of these forms behind the parts.
    #[cycle(expand)]
    fn push_forms(&mut self, forms: &[Form], parts: &mut Cores) -> Result<(), AllocError>
        ensures parts { IfOk result (λ _. parts.new ≡ parts.old ++ cores (map meaning forms.now) self.old.next) }
        ensures next { IfOk result (λ _. self.new.next ≡ self.old.next + made_in (map meaning forms.now)) }
    {
        for form in forms {
            self.push_form(form, parts)?;
        }
        Ok(())
    }

    /// Puts the core form of this form behind the parts.
    #[cycle(expand)]
    fn push_form(&mut self, form: &Form, parts: &mut Cores) -> Result<(), AllocError>
        ensures parts { IfOk result (λ _. parts.new ≡ parts.old ++ (meaning form.now).core self.old.next ∷ []) }
        ensures next { IfOk result (λ _. self.new.next ≡ self.old.next + (meaning form.now).made) }
    {
        add(parts, self.form(form)?)
    }

    /// The core form of a list.
    #[cycle(expand)]
    fn list(&mut self, at: Place, forms: &[Form]) -> Result<Core, AllocError>
        ensures { IfOk result (Gives (of_list at (map meaning forms.now)) self.old.next self.new.next) }
    {
        match sugar_of(forms) {
            Sugar::Plain => self.plain(at, forms),
            Sugar::If => self.if_form(at, forms),
            Sugar::When => self.when(at, forms),
            Sugar::Lookup => self.lookup(at, forms),
            Sugar::Alter => self.alter(at, forms),
        }
    }

    /// A list as it is written.
    #[cycle(expand)]
    fn plain(&mut self, at: Place, forms: &[Form]) -> Result<Core, AllocError>
        ensures { IfOk result (Gives (list at (map meaning forms.now)) self.old.next self.new.next) }
    {
        Ok(Core::new(at, CoreKind::List(self.cores(forms)?)))
    }

    /// A list of these forms behind the symbol of this name.
    #[cycle(expand)]
    fn behind(&mut self, at: Place, name: &[u8], forms: &[Form]) -> Result<Core, AllocError>
        ensures { IfOk result (Gives (list at (symbol_meaning name.now at ∷ map meaning forms.now)) self.old.next self.new.next) }
    {
        let mut parts = headed(self.alloc, at, name)?;
        self.push_forms(forms, &mut parts)?;
        Ok(Core::new(at, CoreKind::List(parts)))
    }

    /// `(if c a)` is `(if c a nil)`.
    #[cycle(expand)]
    fn if_form(&mut self, at: Place, forms: &[Form]) -> Result<Core, AllocError>
        ensures { IfOk result (Gives (of_if at (map meaning forms.now)) self.old.next self.new.next) }
    {
        if forms.len() != 3 {
            return self.plain(at, forms);
        }
        let mut parts = self.cores(forms)?;
        add(&mut parts, Core::new(at, CoreKind::Nil))?;
        Ok(Core::new(at, CoreKind::List(parts)))
    }

    /// `(when c body..)` is `(if c body nil)`.
    #[cycle(expand)]
    fn when(&mut self, at: Place, forms: &[Form]) -> Result<Core, AllocError>
        ensures { IfOk result (Gives (of_when at (map meaning forms.now)) self.old.next self.new.next) }
    {
        let [_, condition, expressions @ ..] = forms else {
            return Ok(Core::new(at, CoreKind::Bad(BadKind::Arity)));
        };
        let mut parts = headed(self.alloc, at, b"if")?;
        self.push_form(condition, &mut parts)?;
        add(&mut parts, self.body(at, expressions)?)?;
        add(&mut parts, Core::new(at, CoreKind::Nil))?;
        Ok(Core::new(at, CoreKind::List(parts)))
    }

    /// One expression for some: nil for none, and a `do` for more than one.
    #[cycle(expand)]
    fn body(&mut self, at: Place, expressions: &[Form]) -> Result<Core, AllocError>
        ensures { IfOk result (Gives (of_body at (map meaning expressions.now)) self.old.next self.new.next) }
    {
        match expressions {
            [] => Ok(Core::new(at, CoreKind::Nil)),
            [expression] => self.form(expression),
            _ => self.behind(at, b"do", expressions),
        }
    }

    /// `(:k m)` is `(get m :k)`, and `(:k m d)` is `(get m :k d)`.
    #[cycle(expand)]
    fn lookup(&mut self, at: Place, forms: &[Form]) -> Result<Core, AllocError>
        ensures { IfOk result (Gives (of_keyword at (map meaning forms.now)) self.old.next self.new.next) }
    {
        let [keyword, collection, default @ ..] = forms else {
            return Ok(Core::new(at, CoreKind::Bad(BadKind::Arity)));
        };
        if default.len() > 1 {
            return Ok(Core::new(at, CoreKind::Bad(BadKind::Arity)));
        }
        let mut parts = headed(self.alloc, at, b"get")?;
        self.push_form(collection, &mut parts)?;
        self.push_form(keyword, &mut parts)?;
        self.push_forms(default, &mut parts)?;
        Ok(Core::new(at, CoreKind::List(parts)))
    }

    /// `(alter r f a1 a2)` is `(let [t r t1 a1 t2 a2] (ref-set t (f (deref t) t1 t2)))`.
    #[cycle(expand)]
    fn alter(&mut self, at: Place, forms: &[Form]) -> Result<Core, AllocError>
        ensures { IfOk result (Gives (of_alter at (map meaning forms.now)) self.old.next self.new.next) }
    {
        let [_, reference, function, values @ ..] = forms else {
            return Ok(Core::new(at, CoreKind::Bad(BadKind::Arity)));
        };
        let mut bindings = Seq::new(self.alloc);
        let name = self.bind(at, reference, &mut bindings)?;
        let head = self.callee(function)?;
        let mut call = call_of(self.alloc, at, head, name)?;
        self.bind_all(at, values, &mut bindings, &mut call)?;
        let_of(self.alloc, at, name, bindings, call)
    }

    /// The head that the second argument of an `alter` becomes: what is written, but no reserved word that is no
    /// primitive.
    #[cycle(expand)]
    #[tactic(auto, using(crate::proofs::Heads::plain_callee))]
    fn callee(&mut self, function: &Form) -> Result<Core, AllocError>
        ensures { IfOk result (Gives (callee (meaning function.now)) self.old.next self.new.next) }
    {
        match &function.kind {
            FormKind::Sym(name) => callee_named(self.alloc, function.at, name.items()),
            _ => self.form(function),
        }
    }

    /// Binds each value to a name made for it, and puts the names behind the call.
    #[cycle(expand)]
    fn bind_all(
        &mut self,
        at: Place,
        values: &[Form],
        bindings: &mut Cores,
        call: &mut Cores,
    ) -> Result<(), AllocError>
        ensures bindings { IfOk result (λ _. bindings.new ≡ bindings.old ++ cores (bindings_of at (map meaning values.now)) self.old.next) }
        ensures call { IfOk result (λ _. call.new ≡ call.old ++ names_of at (map meaning values.now) self.old.next) }
        ensures next { IfOk result (λ _. self.new.next ≡ self.old.next + made_in (bindings_of at (map meaning values.now))) }
    {
        for value in values {
            let name = self.bind(at, value, bindings)?;
            add(call, Core::new(at, CoreKind::Fresh(name)))?;
        }
        Ok(())
    }

    /// Binds the value to a name made for it, and answers the name's number.
    #[cycle(expand)]
    fn bind(&mut self, at: Place, value: &Form, bindings: &mut Cores) -> Result<u32, AllocError>
        ensures name { IfOk result (λ name. name ≡ self.old.next) }
        ensures bindings { IfOk result (λ _. bindings.new ≡ bindings.old ++ core_at at (FreshKind self.old.next) ∷ (meaning value.now).core (self.old.next + 1) ∷ []) }
        ensures next { IfOk result (λ _. self.new.next ≡ self.old.next + 1 + (meaning value.now).made) }
    {
        let name = self.fresh()?;
        add(bindings, Core::new(at, CoreKind::Fresh(name)))?;
        self.push_form(value, bindings)?;
        Ok(name)
    }

    /// The number of a new name. There is none left where numbers of 32 bits are used up.
    fn fresh(&mut self) -> Result<u32, AllocError>
        ensures name { IfOk result (λ name. name ≡ self.old.next) }
        ensures next { IfOk result (λ _. self.new.next ≡ self.old.next + 1) }
    {
        let name = self.next;
        self.next = name.checked_add(1).ok_or(AllocError)?;
        Ok(name)
    }
}

/// What a list is a shorthand for, by its head.
fn sugar_of(forms: &[Form]) -> Sugar
    ensures { result ≡ sugar_in (map meaning forms.now) }
{
    let [head, ..] = forms else {
        return Sugar::Plain;
    };
    match &head.kind {
        FormKind::Sym(name) => sugar_named(name.items()),
        FormKind::Kw(_) => Sugar::Lookup,
        _ => Sugar::Plain,
    }
}

fn sugar_named(name: &[u8]) -> Sugar
    ensures { result ≡ sugar_named name.now }
{
    if name == b"if".as_slice() {
        Sugar::If
    } else if name == b"when".as_slice() {
        Sugar::When
    } else if name == b"alter".as_slice() {
        Sugar::Alter
    } else {
        Sugar::Plain
    }
}

/// The head that a symbol becomes as the second argument of an `alter`.
fn callee_named(alloc: Global, at: Place, name: &[u8]) -> Result<Core, AllocError>
    ensures { IfOk result (λ core. (next : ℕ) → core ≡ (callee (symbol_meaning name.now at)).core next) }
{
    if is_form_word(name) {
        return Ok(Core::new(at, CoreKind::Bad(BadKind::BadForm)));
    }
    symbol(alloc, at, name)
}
