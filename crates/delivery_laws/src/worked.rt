//! Worked examples: `specs/Examples.antt` has the statements.

ghost use Rattle.delivery_laws.specs.Examples.{TokensAreCounted, LostWorldHasEnough};

/// The tokens of two worlds are counted: in one a settle delivers, in the other a message waits.
pub fn counted_tokens()
    ensures { TokensAreCounted }
{}

/// A world that can settle has tokens enough: the law of deliveries is not of no world.
pub fn enough_tokens()
    ensures { LostWorldHasEnough }
{}
