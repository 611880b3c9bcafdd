ghost use Rattle.std.specs.Prelude.{◌≡◌, ◌⊎◌, List};
ghost use Rattle.core_syntax.specs.Table.{Table};
ghost use Rattle.value_core.specs.Place.{Spot};
ghost use Rattle.sexpr_reader.specs.declared.form.Form.{Form};
ghost use Rattle.scope_refusals.specs.declared.kind.ScopeKind.{ScopeKind};
ghost use Rattle.scope_check.specs.Check.{IsProgram, IsRefused};
ghost use Rattle.scope_check.specs.ReadBack.{ReadsBack};

/// The law that forms have one program at most.
pub fn program_once()
    ensures { (forms : List Form) (table : Table) (other : Table) → IsProgram forms table → IsProgram forms other → table ≡ other }
{}

/// The law that forms are refused with one kind at one place at most.
pub fn refused_once()
    ensures { (forms : List Form) (kind : ScopeKind) (other : ScopeKind) (at : Spot) (place : Spot) → IsRefused forms kind at → IsRefused forms other place → (kind ≡ other) × (at ≡ place) }
{}

/// The law that no forms both have a program and are refused.
pub fn program_or_refused()
    ensures { (forms : List Form) (table : Table) (kind : ScopeKind) (at : Spot) → IsProgram forms table → IsRefused forms kind at → ⊥ }
{}

/// The law that all forms have a program, or are refused with some kind at some place.
pub fn every_source()
    ensures { (forms : List Form) → ((table : Table) × IsProgram forms table) ⊎ ((kind : ScopeKind) × (at : Spot) × IsRefused forms kind at) }
{}

/// The law that a program, read back from its table, is that of the forms that it was made of.
pub fn reads_back()
    ensures { (forms : List Form) (table : Table) → IsProgram forms table → ReadsBack forms table }
{}
