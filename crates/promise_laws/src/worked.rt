//! Whose acts are, how epochs follow, and what lines show of a message, worked out: `specs/Examples.antt` has the
//! statements.

ghost use Rattle.promise_laws.specs.Examples.{PacketGoesOn, PartsAreOfAdopters, ReplaysAreOfChannels};
ghost use Rattle.promise_laws.specs.Examples.{PullsAreOfCables, EpochsFollow, MessageIsInLines};

/// A message goes through the switch; a part is its adopter's, a replay the channel's that the packet was held in,
/// and a pull the cable's that is taken out.
pub fn actors_of_acts()
    ensures goes { PacketGoesOn }
    ensures parts { PartsAreOfAdopters }
    ensures replays { ReplaysAreOfChannels }
    ensures pulls { PullsAreOfCables }
{}

/// A second epoch begins once both hosts gave up the first, and not before.
pub fn epochs_that_follow()
    ensures { EpochsFollow }
{}

/// A line `received` shows the message that its `send` handed in.
pub fn message_in_lines()
    ensures { MessageIsInLines }
{}
