//! The three items are those of a host of the world: each function's contract is the law, and its body is empty.

ghost use Rattle.host_items.specs.Laws.{FirstIsSentFirst, SentIsAfterSending, StagedIsHas, GivenUpIsNone, NoneToGiveUp};

/// Within a host of the world that has these items: what stands first is what it sends first, and it counts as sent
/// as there; it has something to give up where one stands, and none stands once it gave up.
pub fn items_are_a_hosts()
    ensures first { FirstIsSentFirst }
    ensures sent { SentIsAfterSending }
    ensures staged { StagedIsHas }
    ensures given_up { GivenUpIsNone }
    ensures none { NoneToGiveUp }
{}
