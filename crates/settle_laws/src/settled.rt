//! What a settle ends with: `specs/Settles.antt` has the statements.

ghost use Rattle.settle_laws.specs.Settles.{SettleEndsSettled};

/// A settle ends in a settled world, where injections are left.
pub fn settled_settles()
    ensures { SettleEndsSettled }
{}
