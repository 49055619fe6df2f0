//! What every run can settle, and what it prints then: `specs/Lines.antt` has the statements.

ghost use Rattle.run_laws.specs.SettleLines.{RunCanSettle, SettledLineIsTrue};

/// A settle can be made after every run, since acts that may happen lead to its world.
pub fn settling_runs()
    ensures { RunCanSettle }
{}

/// Each line `settle rounds R resets N unacked U` of a run says what it is read to say.
pub fn settled_lines()
    ensures { SettledLineIsTrue }
{}
