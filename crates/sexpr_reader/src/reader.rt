ghost use Rattle.std.specs.Prelude.{◌≡◌, ◌≢◌, ◌≤◌, ◌+◌, [], ◌∷◌, length, take, None, IfNone, IfSome};
ghost use Rattle.sexpr_reader.specs.Cursor.{Cursor, Over, start, next_spot, after};
ghost use Rattle.sexpr_reader.specs.Bytes.{has};
ghost use Rattle.sexpr_reader.specs.Gap.{Gap};
ghost use Rattle.sexpr_reader.specs.Lead.{begins, lead_of};
ghost use Rattle.sexpr_reader.specs.Runs.{IsRun};
ghost use Rattle.sexpr_reader.specs.Steps.{gap_class};
ghost use Rattle.sexpr_reader.specs.Limits.{source_limit};

use crate::lead::{Class, Lead, lead_of};
use std::marker::Model;
use value_core::Place;

/// The line and the column after a byte.
fn place_after(line: u32, column: u32, byte: u8) -> (u32, u32)
    requires lines { line ≤ source_limit }
    requires columns { column ≤ source_limit }
    ensures { record { line = result.0; column = result.1 } ≡ next_spot (record { line = line; column = column }) byte }
{
    if byte == b'\n' {
        (line + 1, 1)
    } else {
        (line, column + 1)
    }
}

/// What is left of a source, and the place where that begins.
#[derive(Drop)]
pub struct Reader<'a> {
    line: u32,
    column: u32,
    rest: &'a [u8],
}

impl<'a> Model for Reader<'a> {
    ghost use Rattle.std.specs.Prelude.{◌+◌, ◌≤◌, length};
    ghost use Rattle.sexpr_reader.specs.Cursor.{Cursor};
    ghost use Rattle.sexpr_reader.specs.Limits.{source_limit};

    ghost Value = { Cursor };

    ghost view = { λ r. record { at = record { line = r.line; column = r.column }; rest = r.rest.now } };

    ghost invariant = { λ r. (1 ≤ r.line) × (1 ≤ r.column) × (r.line + length r.rest.now ≤ source_limit + 1) × (r.column + length r.rest.now ≤ source_limit + 1) };
}

impl<'a> Reader<'a> {
    pub fn new(bytes: &'a [u8]) -> Self
        requires { length bytes.now ≤ source_limit }
        ensures { result ≡ record { at = start; rest = bytes.now } }
    {
        Reader {
            line: 1,
            column: 1,
            rest: bytes,
        }
    }

    pub fn place(&self) -> Place
        ensures { result ≡ self.now.at }
    {
        Place::new(self.line, self.column)
    }

    /// What begins here.
    pub fn lead(&self) -> Lead
        ensures { result ≡ lead_of self.now.rest }
    {
        lead_of(self.rest)
    }

    /// Goes one byte on.
    #[tactic(auto, unfolding(crate::specs::Cursor::after))]
    pub fn advance(&mut self) -> Option<u8>
        ensures end { IfNone result (self.old.rest ≡ []) }
        ensures step { IfSome result (λ byte. Over (byte ∷ []) self.old self.new) }
    {
        let [first, rest @ ..] = self.rest else {
            return None;
        };
        let (line, column) = place_after(self.line, self.column, *first);
        self.line = line;
        self.column = column;
        self.rest = rest;
        Some(*first)
    }

    /// Goes that many bytes on.
    pub fn pass(&mut self, count: usize)
        requires { count ≤ length self.old.rest }
        ensures { Over (take count self.old.rest) self.old self.new }
    {
        for index in 0..count {
            self.advance();
        }
    }

    /// Goes over the longest text of bytes of the class, and answers it.
    pub fn run(&mut self, class: Class) -> &'a [u8]
        ensures { IsRun (has class) result.now self.old self.new }
    {
        let from = self.rest;
        while self.begins(class) {
            self.advance();
        }
        &from[..from.len() - self.rest.len()]
    }

    pub fn begins(&self, class: Class) -> bool
        ensures { result ≡ begins (has class) self.now.rest }
    {
        match self.rest {
            [] => false,
            [first, ..] => class.has(*first),
        }
    }

    /// Goes over white space and comments.
    pub fn skip(&mut self)
        ensures gap { Gap self.old self.new }
        ensures ends { gap_class (lead_of self.new.rest) ≡ None }
    {
        while let Some(class) = gap_class(self.lead()) {
            self.run(class);
        }
    }
}

/// What goes on from such a lead, where that only separates.
fn gap_class(lead: Lead) -> Option<Class>
    ensures { result ≡ gap_class lead }
{
    match lead {
        Lead::WhiteSpace => Some(Class::WhiteSpace),
        Lead::Comment => Some(Class::Line),
        _ => None,
    }
}
