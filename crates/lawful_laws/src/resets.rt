//! When a settle resets a channel: `specs/Resets.antt` has the statement.

ghost use Rattle.lawful_laws.specs.Resets.{OnlyUnlawfulIsReset};

/// A settle resets a channel only where, as one of its clears began, some packet wasn't lawful.
pub fn resets_of_unlawful_traffic()
    ensures lawful { OnlyUnlawfulIsReset }
{}
