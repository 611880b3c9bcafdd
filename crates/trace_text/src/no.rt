ghost use Rattle.std.specs.Prelude.{◌≡◌};
ghost use Rattle.trace_text.specs.Refused.{why_at};

use crate::error::TraceNo;
use serial_model::LineKind;

/// Why a line, or a part of one, is not read.
#[derive(Clone, Copy, Debug, PartialEq, Eq)]
pub enum LineNo {
    /// It does not fit.
    Bad,
    /// There is no memory.
    Memory,
}

impl LineNo {
    /// What that means for a text, at the line of that number.
    pub fn at(self, line: u64) -> TraceNo
        ensures { result ≡ why_at self line }
    {
        match self {
            LineNo::Bad => TraceNo::Refused {
                kind: LineKind::BadLine,
                line,
            },
            LineNo::Memory => TraceNo::Memory,
        }
    }
}
