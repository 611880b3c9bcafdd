ghost use Rattle.std.specs.Prelude.{◌≡◌, ◌⊎◌, ℕ, List};
ghost use Rattle.serial_model.specs.declared.trace.LineKind.{LineKind};
ghost use Rattle.serial_model.specs.declared.trace.Trace.{Trace};
ghost use Rattle.serial_model.specs.Trace.{IsTextOfTrace, IsTrace, trace_refusal, trace_text};
ghost use Rattle.trace_text.specs.Same.{IsSameTrace};

/// The law that two traces of one text are the same.
pub fn one_trace()
    ensures { (t : Trace) (u : Trace) → IsTrace t → IsTrace u → trace_text t ≡ trace_text u → IsSameTrace t u }
{}

/// The law that no trace's text is refused.
pub fn text_or_refused()
    ensures { (bytes : List ℕ) (t : Trace) (kind : LineKind) (line : ℕ) → IsTextOfTrace t bytes → trace_refusal bytes kind line → ⊥ }
{}

/// The law that bytes are refused with one kind and at one line at most.
pub fn refused_once()
    ensures { (bytes : List ℕ) (kind : LineKind) (other : LineKind) (line : ℕ) (place : ℕ) → trace_refusal bytes kind line → trace_refusal bytes other place → (kind ≡ other) × (line ≡ place) }
{}

/// The law that all bytes are a trace's text, or are refused with some kind at some line.
pub fn every_text()
    ensures { (bytes : List ℕ) → ((t : Trace) × IsTextOfTrace t bytes) ⊎ ((kind : LineKind) × (line : ℕ) × trace_refusal bytes kind line) }
{}
