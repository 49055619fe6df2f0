//! A reached world, worked out: `specs/Examples.antt` has the statements.

ghost use Rattle.table_laws.specs.Examples.{AdoptedIsReached, OneTableIsActive};

/// The two hosts at one switch reach a world in which one table is active.
pub fn one_adoption()
    ensures reached { AdoptedIsReached }
    ensures active { OneTableIsActive }
{}
