ghost use Rattle.std.specs.Prelude.{◌≤◌, ℕ};
ghost use Rattle.core_syntax.specs.Table.{Table};
ghost use Rattle.program_maker.specs.MadeText.{made_text};
ghost use Rattle.command_phases.specs.Program.{IsProgramOf};

/// The law that each text that is made of at most 10,000 transfers is a source whose forms have a program.
pub fn made_is_program()
    ensures { (number : ℕ) (size : ℕ) → size ≤ 10000 → (table : Table) × IsProgramOf (made_text number size) table }
{}
