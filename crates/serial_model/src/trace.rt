ghost use Rattle.std.specs.Prelude.{◌≡◌};
ghost use Rattle.serial_model.specs.Kinds.{kind_number};

use crate::end::End;
use crate::history::History;
use crate::limits::Limits;

/// What a run hands out: its limits, its entries and its end.
#[derive(Drop)]
pub struct Trace {
    pub limits: Limits,
    pub history: History,
    pub end: End,
}

/// Why bytes are the text of no trace. The number of each is its position here, from 1.
#[derive(Clone, Copy, Debug, PartialEq, Eq)]
pub enum LineKind {
    /// That line is the first that does not fit.
    BadLine = 1,
    /// There are more bytes than a trace is read from.
    TooLong,
}

impl LineKind {
    /// The number of the refusal, from 1 to 2.
    pub fn number(self) -> u8
        ensures { result ≡ kind_number self }
    {
        match self {
            LineKind::BadLine => 1,
            LineKind::TooLong => 2,
        }
    }
}
