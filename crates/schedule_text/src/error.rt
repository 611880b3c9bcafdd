use serial_model::LineKind;
use thiserror::Error;

/// Why bytes are read as no schedule.
#[derive(Clone, Copy, Debug, PartialEq, Eq, Error)]
pub enum LineNo {
    /// The bytes are no schedule's text, with the kind of the refusal and its line, from 1.
    #[error("the schedule is refused")]
    Refused { kind: LineKind, line: u64 },
    /// There is no memory.
    #[error("out of memory")]
    Memory,
}
