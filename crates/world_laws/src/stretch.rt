//! What a drain and a clear come to: `specs/Draining.antt` has the statements.

ghost use Rattle.world_laws.specs.Draining.{AdvanceOfLinks, DrainDrains, DrainsAreOne, ChangesAreHops, DrainedIsStill};
ghost use Rattle.world_laws.specs.Draining.{ClearedIsIdle, ResetsAreFull, NoResetsIsIdle, IdleIsDrained, IdleIsCleared};

/// An advance of the world changes the links as an advance of the links.
pub fn advances_of_links()
    ensures { AdvanceOfLinks }
{}

/// A drain is passes up to the first that changes nothing: it ends, with no more changes than hops, and with links
/// that are idle or stuck.
pub fn drains()
    ensures drain { DrainDrains }
    ensures one { DrainsAreOne }
    ensures bound { ChangesAreHops }
    ensures still { DrainedIsStill }
    ensures nothing { IdleIsDrained }
{}

/// A clear resets the channels that a drain left full, and leaves the links idle.
pub fn clears()
    ensures idle { ClearedIsIdle }
    ensures resets { ResetsAreFull }
    ensures no_resets { NoResetsIsIdle }
    ensures nothing { IdleIsCleared }
{}
