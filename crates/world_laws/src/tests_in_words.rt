//! What the tests of a settle say: `specs/Tests.antt` has the statements.

ghost use Rattle.world_laws.specs.Tests.{QuietTest, BaseTest, NoneLeftTest, NoneLeftIsSettled};

/// The tests by which passes and rounds end say what they are named for.
pub fn tests_of_settles()
    ensures quiet { QuietTest }
    ensures base { BaseTest }
    ensures none_left { NoneLeftTest }
{}

/// A world in which all is acknowledged is settled.
pub fn settled_worlds()
    ensures { NoneLeftIsSettled }
{}
