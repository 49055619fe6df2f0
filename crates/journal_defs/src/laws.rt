//! The laws of journals: each function's contract is the law, and its body is empty.

ghost use Rattle.journal_defs.specs.Walks.{walk_below, IsStrictOrder};
ghost use Rattle.journal_defs.specs.DistanceLaws.{DistanceIsShortest, PartIsReached, PartIsNear, HostsAreNear};
ghost use Rattle.journal_defs.specs.WalkLaws.{WalksAreCounted, WalksAreFew};
ghost use Rattle.journal_defs.specs.Laws.{FarEndGoesBothWays, ReplicatesStandTogether, OffsetsAreTurns, OffsetIsUnique};
ghost use Rattle.journal_defs.specs.Laws.{OwnOffsetIsZero, NextAskIsUnique, NoAskAtTheEnd};

/// A cable's far end goes both ways.
pub fn far_ends_go_both_ways()
    ensures { FarEndGoesBothWays }
{}

/// Of two walks that differ one stands before the other.
pub fn walks_are_ordered()
    ensures { IsStrictOrder walk_below }
{}

/// Over answers that are true of one fabric, replicates are one vertex, and their offset is the one between its ports.
pub fn replicates_are_one_vertex()
    ensures together { ReplicatesStandTogether }
    ensures in_range { OffsetsAreTurns }
    ensures unique { OffsetIsUnique }
    ensures own { OwnOffsetIsZero }
{}

/// A journal has one next ask, until it has grown to its depth.
pub fn growth_is_determined()
    ensures one { NextAskIsUnique }
    ensures none { NoAskAtTheEnd }
{}

/// Distances that are computed are those of shortest paths, and the mapper's part is what paths reach.
pub fn distances_are_of_paths()
    ensures shortest { DistanceIsShortest }
    ensures reached { PartIsReached }
    ensures near { PartIsNear }
    ensures near_a_host { HostsAreNear }
{}

/// W is the number of walks to that depth that end at a host or a switch.
pub fn walks_are_counted()
    ensures counted { WalksAreCounted }
    ensures few { WalksAreFew }
{}
