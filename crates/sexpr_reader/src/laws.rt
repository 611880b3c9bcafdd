ghost use Rattle.std.specs.Prelude.{◌≡◌, ◌≤◌, ◌⊎◌, ℕ, List, length, map};
ghost use Rattle.value_core.specs.Place.{Spot};
ghost use Rattle.sexpr_reader.specs.declared.error.ReadKind.{ReadKind};
ghost use Rattle.sexpr_reader.specs.declared.form.Form.{Form};
ghost use Rattle.sexpr_reader.specs.Limits.{source_limit};
ghost use Rattle.sexpr_reader.specs.Grammar.{IsSource, IsRefused};
ghost use Rattle.sexpr_reader.specs.Places.{without_places};
ghost use Rattle.sexpr_reader.specs.Spelling.{spelling};

/// The law that bytes are spelled by one list of forms at most.
pub fn spelled_once()
    ensures { (bytes : List ℕ) (forms : List Form) (others : List Form) → IsSource bytes forms → IsSource bytes others → forms ≡ others }
{}

/// The law that no bytes are both spelled and refused.
pub fn spelled_or_refused()
    ensures { (bytes : List ℕ) (forms : List Form) (kind : ReadKind) (at : Spot) → IsSource bytes forms → IsRefused bytes kind at → ⊥ }
{}

/// The law that bytes are refused with one kind at one place at most.
pub fn refused_once()
    ensures { (bytes : List ℕ) (kind : ReadKind) (other : ReadKind) (at : Spot) (place : Spot) → IsRefused bytes kind at → IsRefused bytes other place → (kind ≡ other) × (at ≡ place) }
{}

/// The law that all bytes are spelled by some forms or refused with some kind at some place.
pub fn every_text()
    ensures { (bytes : List ℕ) → ((forms : List Form) × IsSource bytes forms) ⊎ ((kind : ReadKind) × (at : Spot) × IsRefused bytes kind at) }
{}

/// The law that the spelling of forms that some bytes spell, where it is within the limit, spells the same forms again,
/// their places aside.
pub fn spelled_again()
    ensures { (bytes : List ℕ) (forms : List Form) → IsSource bytes forms → length (spelling forms) ≤ source_limit → (again : List Form) × IsSource (spelling forms) again × (map without_places again ≡ map without_places forms) }
{}
