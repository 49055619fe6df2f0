//! What holds of every history of cables: each function's contract is the law, and its body is empty.

ghost use Rattle.world_defs.specs.Fewer.{FewerCablesAreFront, ReachedOverMore, PlaceOverMore, LeftStoodAtAcceptance};
ghost use Rattle.world_defs.specs.Fewer.{PullLeavesFewer, UnpluggedStood, PullKeepsPast, PlugKeepsPast};
ghost use Rattle.world_defs.specs.CableLaws.{FirstIsHistory, FirstStands, FirstChannels, PullKeepsHistory};
ghost use Rattle.world_defs.specs.CableLaws.{PullAtKeepsHistory, PlugKeepsHistory, AcceptKeepsHistory, AcceptedIsOld};
ghost use Rattle.world_defs.specs.Later.{PulledIsLater, LaterOnIsLater, PulledOnIsPulled, LaterKeeps};
ghost use Rattle.world_defs.specs.Later.{LaterKeepsChannels, LaterKeepsPast, LaterKeepsPastChannels};
ghost use Rattle.world_defs.specs.Later.{PulledLeaveFewer, UnchangedIsSame};
ghost use Rattle.world_defs.specs.CableLaws.{LastIsNow, LeavingHasItsEnd, StandingLeavesItsTail, EndsAreForLife};
ghost use Rattle.world_defs.specs.CableLaws.{EndsAreThere};

/// Before any change the fabric stands as it ever stood, and its channels are those of its cables.
pub fn first_histories()
    ensures history { FirstIsHistory }
    ensures stands { FirstStands }
    ensures channels { FirstChannels }
{}

/// A pull of a cable in place, a plug and an acceptance keep a history, and after the last no cable is new.
pub fn kept_histories()
    ensures pull { PullKeepsHistory }
    ensures pull_at { PullAtKeepsHistory }
    ensures plug { PlugKeepsHistory }
    ensures accept { AcceptKeepsHistory }
    ensures old { AcceptedIsOld }
{}

/// A cable in place is what leaves by its ends; a channel's ends are for life, and ports of the fabric.
pub fn ends_for_life()
    ensures leaving { LeavingHasItsEnd }
    ensures standing { StandingLeavesItsTail }
    ensures ends { EndsAreForLife }
    ensures there { EndsAreThere }
{}

/// The fabric of an earlier time stays, whatever is pulled or plugged later, and the last is the one that stands.
pub fn the_past()
    ensures pull { PullKeepsPast }
    ensures plug { PlugKeepsPast }
    ensures last { LastIsNow }
{}

/// A walk over fewer cables crosses the first of the channels that it crosses over more, and ends where it ends there.
pub fn fewer_cables()
    ensures front { FewerCablesAreFront }
    ensures reached { ReachedOverMore }
    ensures place { PlaceOverMore }
    ensures left { LeftStoodAtAcceptance }
    ensures pull { PullLeavesFewer }
    ensures unplugged { UnpluggedStood }
{}

/// Later changes keep the hosts, the switches, the channels' ends and all that is past; pulls leave fewer cables.
pub fn later_changes()
    ensures pulled { PulledIsLater }
    ensures later_on { LaterOnIsLater }
    ensures pulled_on { PulledOnIsPulled }
    ensures kept { LaterKeeps }
    ensures channels { LaterKeepsChannels }
    ensures past { LaterKeepsPast }
    ensures past_channels { LaterKeepsPastChannels }
    ensures fewer { PulledLeaveFewer }
    ensures unchanged { UnchangedIsSame }
{}
