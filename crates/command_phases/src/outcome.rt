ghost use Rattle.std.specs.Prelude.{◌≡◌};

use scope_check::ScopeKind;
use serial_model::{End, History, LineKind};
use sexpr_reader::ReadKind;
use std::alloc::Global;
use value_core::Place;

/// What the program was told of, and what became of it.
#[derive(Drop)]
pub struct Outcome {
    /// The exit status.
    pub status: u8,
    /// The entries of the run, in the order in which one thread can replay them.
    pub history: History,
    /// The end of the run, where it came to one.
    pub end: Option<End>,
    pub detail: Detail,
}

/// More of an outcome.
#[derive(Drop)]
pub enum Detail {
    Nothing,
    /// A part of what was read is refused, with the number of the refusal and its place.
    Refused {
        part: Part,
        kind: u8,
        line: u64,
        column: u64,
    },
    /// A replay differs from its trace, with the line of the trace, the end that the trace states, and the end of the
    /// state before that line, where it is over.
    Differs {
        line: u64,
        stated: End,
        found: Option<End>,
    },
}

/// A part of what the program reads.
#[derive(Clone, Copy, Debug, PartialEq, Eq)]
pub enum Part {
    /// The text of the source.
    Source,
    /// What the source's forms mean.
    Scope,
    /// The text of a trace.
    Trace,
    /// The text of a schedule.
    Schedule,
}

impl Detail {
    ghost use Rattle.command_phases.specs.Outcome.{refused_as, out_of_scope, refused_lines};
    ghost use Rattle.command_phases.specs.declared.outcome.Detail.TheVariants.{Refused};

    /// The source is refused with that kind at that place.
    pub fn refused(kind: ReadKind, at: Place) -> Self
        ensures { result ≡ refused_as kind at }
    {
        Detail::refused_at(Part::Source, kind.number(), at)
    }

    /// The forms of the source are refused with that kind at that place.
    pub fn out_of_scope(kind: ScopeKind, at: Place) -> Self
        ensures { result ≡ out_of_scope kind at }
    {
        Detail::refused_at(Part::Scope, kind.number(), at)
    }

    fn refused_at(part: Part, kind: u8, at: Place) -> Self
        ensures { result ≡ Refused part kind at.line at.column }
    {
        Detail::Refused {
            part,
            kind,
            line: u64::from(at.line()),
            column: u64::from(at.column()),
        }
    }

    /// A text that is read line by line is refused with that kind at that line.
    pub fn refused_lines(part: Part, kind: LineKind, line: u64) -> Self
        ensures { result ≡ refused_lines part kind line }
    {
        Detail::Refused {
            part,
            kind: kind.number(),
            line,
            column: 1,
        }
    }
}

impl Outcome {
    ghost use Rattle.command_phases.specs.Unrun.{IsUnrun};

    /// The outcome of words that lead to no run.
    pub fn without_run(alloc: Global, status: u8, detail: Detail) -> Self
        ensures { IsUnrun status detail result }
    {
        Outcome {
            status,
            history: History::new(alloc),
            end: None,
            detail,
        }
    }
}
