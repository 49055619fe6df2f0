//! Every event leaves a world, whose cables it may pull or plug: `specs/Shape.antt` has the statements.

ghost use Rattle.world_laws.specs.Shape.{NewIsWorld, EventLeavesWorld, EventsLeaveWorld, EventIsLater, EventsAreLater};
ghost use Rattle.world_laws.specs.Shape.{EventPulls, EventKeepsCables, EventKeepsVertices, EventKeepsPast};
ghost use Rattle.world_laws.specs.Shape.{NewHasSenders};
ghost use Rattle.world_laws.specs.Shape.{EventKeepsSenders, EventsKeepSenders, AdoptionLeavesWorld, PlanLeavesWorld};
ghost use Rattle.world_laws.specs.Shape.{AdoptionKeepsSenders, PlanKeepsSenders};

/// A fabric's world stays one, with its hosts and switches.
pub fn kept_worlds()
    ensures new { NewIsWorld }
    ensures event { EventLeavesWorld }
    ensures events { EventsLeaveWorld }
    ensures adoption { AdoptionLeavesWorld }
    ensures plan { PlanLeavesWorld }
{}

/// An event may pull or plug; one that is neither that nor an injection leaves the cables, and every event the past.
pub fn kept_cables()
    ensures later { EventIsLater }
    ensures later_after_all { EventsAreLater }
    ensures pulls { EventPulls }
    ensures cables { EventKeepsCables }
    ensures vertices { EventKeepsVertices }
    ensures past { EventKeepsPast }
{}

/// The numbers of every connection stay in order.
pub fn kept_senders()
    ensures new { NewHasSenders }
    ensures event { EventKeepsSenders }
    ensures events { EventsKeepSenders }
    ensures adoption { AdoptionKeepsSenders }
    ensures plan { PlanKeepsSenders }
{}
