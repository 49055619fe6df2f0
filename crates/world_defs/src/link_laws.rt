//! What holds of every step of the links: each function's contract is the law, and its body is empty.
//! `specs/Laws.antt` has the statements.

ghost use Rattle.world_defs.specs.LinkLaws.{AdvanceLowersHops, StillAdvance};
ghost use Rattle.world_defs.specs.LinkLaws.{NoHopsIsIdle, StuckIsStill, StillIsStuck, RefusedPut, IdleLose, IdleReset};
ghost use Rattle.world_defs.specs.LinkLaws.{IdleRepeat, IdleHold, IdleFlip, IdleReplay, IdlePull, IdlePlug, EmptyIsLinks};
ghost use Rattle.world_defs.specs.LinkLaws.{EmptyIsIdle};
ghost use Rattle.world_defs.specs.LinkLaws.{StepKeepsCables, StepKeepsVertices, StepKeepsHistory, StepKeepsLinks};
ghost use Rattle.world_defs.specs.LinkLaws.{StepsKeepCables, StepsKeepLinks};
ghost use Rattle.world_defs.specs.Lone.{LoneAdvance, LonePacketWalks, LonePacketWalksWhereNoneIsNew, NoChannelIsStuck};
ghost use Rattle.world_defs.specs.Ordered.{NextIsLeast, NoNextIsLeft, NewSerialIsLast, FoundByOrder, TakenByOrder};
ghost use Rattle.world_defs.specs.Mark.{EmptyHasTrueMarks, MarksStayTrue};

/// An advance lowers the hops left of all packets, or changes nothing.
pub fn falling_hops()
    ensures lower { AdvanceLowersHops }
    ensures still { StillAdvance }
    ensures idle { NoHopsIsIdle }
{}

/// Links are stuck exactly where they hold a packet and no advance changes them.
pub fn stuck_links()
    ensures still { StuckIsStill }
    ensures stuck { StillIsStuck }
{}

/// What isn't possible changes nothing.
pub fn idle_steps()
    ensures put { RefusedPut }
    ensures lose { IdleLose }
    ensures reset { IdleReset }
    ensures repeat { IdleRepeat }
    ensures hold { IdleHold }
    ensures flip { IdleFlip }
    ensures replay { IdleReplay }
    ensures pull { IdlePull }
    ensures plug { IdlePlug }
{}

/// After every list of steps the links are links. A step of packets keeps the cables; each keeps the hosts and the
/// switches, and a history.
pub fn kept_by_steps()
    ensures empty { EmptyIsLinks }
    ensures empty_idle { EmptyIsIdle }
    ensures cables { StepKeepsCables }
    ensures vertices { StepKeepsVertices }
    ensures history { StepKeepsHistory }
    ensures links { StepKeepsLinks }
    ensures cables_after_all { StepsKeepCables }
    ensures links_after_all { StepsKeepLinks }
{}

/// A packet alone in the links goes the way of its walk, and ends at the walk's place.
pub fn lone_packets()
    ensures advance { LoneAdvance }
    ensures place { LonePacketWalks }
    ensures unchanged { LonePacketWalksWhereNoneIsNew }
    ensures no_channel { NoChannelIsStuck }
{}

/// After all steps a marked packet has a difference, so each host drops it, and one without mark has none.
pub fn true_marks()
    ensures empty { EmptyHasTrueMarks }
    ensures stay { MarksStayTrue }
{}

/// An ordered map from serials keeps limbo as it stands: a new serial is the last, and a serial is found and taken
/// out by the order.
pub fn limbo_in_order()
    ensures next { NextIsLeast }
    ensures no_next { NoNextIsLeft }
    ensures last { NewSerialIsLast }
    ensures found { FoundByOrder }
    ensures taken { TakenByOrder }
{}
