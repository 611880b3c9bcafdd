ghost use Rattle.std.specs.Prelude.{◌≡◌, ◌≢◌, ◌≤◌, ◌<◌, ◌↔◌, [], ◌∷◌, ◌++◌, length, IsTrue, IfOk, IfErr};
ghost use Rattle.sexpr_reader.specs.Forms.{form_at, group_kind, atom_kind};
ghost use Rattle.sexpr_reader.specs.Grammar.{RefusedAs};
ghost use Rattle.sexpr_reader.specs.Limits.{nest_limit};
ghost use Rattle.sexpr_reader.specs.Nest.{seen, nest_of, frame_of, group_form, shut, shut_settled, settled, IsInnermost, Moves, Blocks, Finishes};
ghost use Rattle.sexpr_reader.specs.declared.error.ReadNo.TheVariants.{Memory};

use crate::error::{ReadKind, ReadNo, refused};
use crate::form::{Form, FormKind, Forms};
use crate::frame::Frame;
use crate::group::{Group, Opened};
use crate::token::{Atom, Token, TokenKind};
use std::alloc::Global;
use std::mem;
use value_core::Place;

/// The most brackets and `@`s that may be open at once.
pub const NEST_LIMIT: usize = 256;

/// What is open, and the forms that are complete in the innermost of it.
#[derive(Drop)]
pub struct Nest {
    open: Vec<Frame>,
    forms: Forms,
}

impl Nest {
    pub fn new(alloc: Global) -> Self
        ensures { seen result ≡ nest_of [] [] }
    {
        Nest {
            open: Vec::new(alloc),
            forms: Forms::new(alloc),
        }
    }

    /// Takes the next token.
    pub fn take(&mut self, alloc: Global, token: Token) -> Result<(), ReadNo>
        ensures moves { IfOk result (λ _. Moves (seen self.old) token.at token.kind (seen self.new)) }
        ensures blocks { IfErr result (RefusedAs (Blocks (seen self.old) token.at token.kind)) }
    {
        let Token { at, kind } = token;
        match kind {
            TokenKind::Open(group) => self.begin(alloc, Opened { at, group }),
            TokenKind::Close(group) => self.close(alloc, at, group),
            TokenKind::Atom(atom) => self.add(alloc, atom_form(at, atom)),
        }
    }

    /// The forms, where nothing is open.
    pub fn finish(self) -> Result<Forms, ReadNo>
        ensures { Finishes (seen self).frames (seen self).forms result }
    {
        match self.open.last() {
            None => Ok(self.forms),
            Some(frame) => Err(refused(ReadKind::Unclosed, frame.opened.at)),
        }
    }

    fn begin(&mut self, alloc: Global, opened: Opened) -> Result<(), ReadNo>
        ensures ok { IfOk result (λ _. (length (seen self.old).frames < nest_limit) × (seen self.new ≡ nest_of (frame_of opened (seen self.old).forms ∷ (seen self.old).frames) [])) }
        ensures err { IfErr result (RefusedAs (λ kind at. (kind ≡ ReadKind.TooNested) × (at ≡ opened.at) × (nest_limit ≤ length (seen self.old).frames))) }
    {
        if self.open.len() >= NEST_LIMIT {
            return Err(refused(ReadKind::TooNested, opened.at));
        }
        let before = mem::replace(&mut self.forms, Forms::new(alloc));
        self.open
            .push(Frame { opened, before })
            .map_err(|_| ReadNo::Memory)
    }

    fn close(&mut self, alloc: Global, at: Place, group: Group) -> Result<(), ReadNo>
        ensures ok { IfOk result (λ _. IsInnermost group (seen self.old).frames × (seen self.new ≡ shut_settled (seen self.old))) }
        ensures err { IfErr result (RefusedAs (λ k s. (k ≡ ReadKind.Unmatched) × (s ≡ at) × (IsInnermost group (seen self.old).frames → ⊥))) }
    {
        if !self.is_innermost(group) {
            return Err(refused(ReadKind::Unmatched, at));
        }
        self.shut(alloc)?;
        self.settle(alloc)
    }

    fn add(&mut self, alloc: Global, form: Form) -> Result<(), ReadNo>
        ensures ok { IfOk result (λ _. seen self.new ≡ settled (seen self.old).frames ((seen self.old).forms ++ form ∷ [])) }
        ensures err { IfErr result (λ error. error ≡ Memory) }
    {
        self.forms.push(form).map_err(|_| ReadNo::Memory)?;
        self.settle(alloc)
    }

    /// Completes each `@` directly round a complete form.
    fn settle(&mut self, alloc: Global) -> Result<(), ReadNo>
        ensures ok { IfOk result (λ _. seen self.new ≡ settled (seen self.old).frames (seen self.old).forms) }
        ensures err { IfErr result (λ error. error ≡ Memory) }
    {
        'signs: while self.is_innermost(Group::At) {
            self.shut(alloc)?;
        }
        Ok(())
    }

    fn is_innermost(&self, group: Group) -> bool
        ensures { IsTrue result ↔ IsInnermost group (seen self.now).frames }
    {
        match self.open.last() {
            None => false,
            Some(frame) => frame.opened.group == group,
        }
    }

    /// Completes the innermost.
    fn shut(&mut self, alloc: Global) -> Result<(), ReadNo>
        requires { (seen self.old).frames ≢ [] }
        ensures ok { IfOk result (λ _. seen self.new ≡ shut (seen self.old).frames (seen self.old).forms) }
        ensures err { IfErr result (λ error. error ≡ Memory) }
    {
        let Some(frame) = self.open.pop() else {
            unreachable!();
        };
        let parts = mem::replace(&mut self.forms, frame.before);
        self.forms
            .push(group_form(frame.opened, parts))
            .map_err(|_| ReadNo::Memory)
    }
}

fn atom_form(at: Place, atom: Atom) -> Form
    ensures { result ≡ form_at at (atom_kind atom) }
{
    Form {
        at,
        kind: atom_kind(atom),
    }
}

fn atom_kind(atom: Atom) -> FormKind
    ensures { result ≡ atom_kind atom }
{
    match atom {
        Atom::Nil => FormKind::Nil,
        Atom::Bool(b) => FormKind::Bool(b),
        Atom::Int(n) => FormKind::Int(n),
        Atom::Str(text) => FormKind::Str(text),
        Atom::Kw(name) => FormKind::Kw(name),
        Atom::Sym(name) => FormKind::Sym(name),
    }
}

fn group_form(opened: Opened, parts: Forms) -> Form
    ensures { result ≡ group_form opened parts }
{
    Form {
        at: opened.at,
        kind: group_kind(opened.group, parts),
    }
}

fn group_kind(group: Group, parts: Forms) -> FormKind
    ensures { result ≡ group_kind group parts }
{
    match group {
        Group::List => FormKind::List(parts),
        Group::Vector => FormKind::Vector(parts),
        Group::Map => FormKind::Map(parts),
        Group::At => FormKind::At(parts),
    }
}
