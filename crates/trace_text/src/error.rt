use serial_model::LineKind;
use thiserror::Error;

/// Why bytes are read as no trace.
#[derive(Clone, Copy, Debug, PartialEq, Eq, Error)]
pub enum TraceNo {
    /// The bytes are no trace's text, with the kind of the refusal and its line.
    #[error("the trace is refused")]
    Refused { kind: LineKind, line: u64 },
    /// There is no memory.
    #[error("out of memory")]
    Memory,
}
