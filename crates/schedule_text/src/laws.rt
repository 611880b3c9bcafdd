ghost use Rattle.std.specs.Prelude.{◌≡◌, ◌⊎◌, ℕ, List, All};
ghost use Rattle.serial_model.specs.declared.trace.LineKind.{LineKind};
ghost use Rattle.schedule_text.specs.declared.line.Line.{Line};
ghost use Rattle.schedule_text.specs.Schedule.{IsLine, IsTextOfSchedule, schedule_refusal, text_of};

/// The law that two schedules of one text are the same.
pub fn one_schedule()
    ensures { (lines : List Line) (others : List Line) → All IsLine lines → All IsLine others → text_of lines ≡ text_of others → lines ≡ others }
{}

/// The law that no schedule's text is refused.
pub fn schedule_or_refused()
    ensures { (bytes : List ℕ) (lines : List Line) (kind : LineKind) (line : ℕ) → IsTextOfSchedule lines bytes → schedule_refusal bytes kind line → ⊥ }
{}

/// The law that bytes are refused with one kind and at one line at most.
pub fn schedule_refused_once()
    ensures { (bytes : List ℕ) (kind : LineKind) (other : LineKind) (line : ℕ) (place : ℕ) → schedule_refusal bytes kind line → schedule_refusal bytes other place → (kind ≡ other) × (line ≡ place) }
{}

/// The law that all bytes are a schedule's text, or are refused with some kind at some line.
pub fn every_schedule()
    ensures { (bytes : List ℕ) → ((lines : List Line) × IsTextOfSchedule lines bytes) ⊎ ((kind : LineKind) × (line : ℕ) × schedule_refusal bytes kind line) }
{}
