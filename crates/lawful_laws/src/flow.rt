//! Lawful traffic flows: `specs/Stuck.antt` has the statements.

ghost use Rattle.lawful_laws.specs.Stuck.{LawfulIsNotStuck, LawfulDrainsIdle, LawfulNeedsNoReset};

/// Lawful traffic isn't stuck, so a drain leaves idle links, and a clear resets nothing.
pub fn lawful_traffic()
    ensures flows { LawfulIsNotStuck }
    ensures drain { LawfulDrainsIdle }
    ensures clear { LawfulNeedsNoReset }
{}
