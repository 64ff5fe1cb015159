//! Theorems about spelling: each is the contract of a function that does nothing.
ghost use Rattle.std.specs.Prelude.{◌≡◌, ℕ, List};
ghost use Rattle.iox_command.specs.declared.command.Command.{Command};
ghost use Rattle.iox_line.specs.Spelling.{Fits, Spells};

/// No line spells two different commands.
pub fn one_command()
    ensures { (line : List ℕ) → (c d : Command ℕ) → Spells line c → Spells line d → c ≡ d }
{}

/// Each command that can be written has a line.
pub fn each_has_a_line()
    ensures { (c : Command ℕ) → Fits c → (line : List ℕ) × Spells line c }
{}
