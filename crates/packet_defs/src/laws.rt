//! What holds of every packet: each function's contract is the law, and its body is empty. `specs/Laws.antt` has the
//! statements.

ghost use Rattle.packet_defs.specs.Laws.{DivisionLeavesRemainder, RemainderIsUnique, CrcIsLinear, CrcAfterFront};
ghost use Rattle.packet_defs.specs.Laws.{CrcAfterEnd, ContributionRepeats, RouteByteHasTurn, OnlyRouteByteHasTurn};
ghost use Rattle.packet_defs.specs.Laws.{BuiltIsSound, BuiltBeginsWithTurn, StripLeavesOtherTurns, BuiltIsTaken};
ghost use Rattle.packet_defs.specs.Laws.{StripKeepsDifference, StripTakesOneByte, StripsKeepDifference, FlipAddsBurst};
ghost use Rattle.packet_defs.specs.Laws.{FlipWritesTwoBytes, FlipKeepsLength, FlipIsSeen, DifferenceIsDropped};
ghost use Rattle.packet_defs.specs.Laws.{FlippedIsDropped};

/// The remainder is the one that a division by x^8 + x^2 + x + 1 leaves.
pub fn remainder_of_a_division()
    ensures left { DivisionLeavesRemainder }
    ensures unique { RemainderIsUnique }
{}

/// The CRC of sums, of a byte in front and at the end, and the period of a contribution.
pub fn crc_of_parts()
    ensures linear { CrcIsLinear }
    ensures front { CrcAfterFront }
    ensures end { CrcAfterEnd }
    ensures period { ContributionRepeats }
{}

/// A turn has its route byte, and only the route byte of a turn has a turn.
pub fn turns_of_route_bytes()
    ensures there_and_back { RouteByteHasTurn }
    ensures only { OnlyRouteByteHasTurn }
{}

/// A packet that was built is sound, takes the turns of its route in order, and gives a host its kind and payload.
pub fn built_packets()
    ensures sound { BuiltIsSound }
    ensures next { BuiltBeginsWithTurn }
    ensures others { StripLeavesOtherTurns }
    ensures taken { BuiltIsTaken }
{}

/// A strip keeps the difference, whatever byte it takes.
pub fn strips()
    ensures kept { StripKeepsDifference }
    ensures shorter { StripTakesOneByte }
    ensures kept_by_many { StripsKeepDifference }
{}

/// One burst of at most eight bits is seen at every host.
pub fn flips()
    ensures bits { FlipAddsBurst }
    ensures two_bytes { FlipWritesTwoBytes }
    ensures same_length { FlipKeepsLength }
    ensures seen { FlipIsSeen }
    ensures difference { DifferenceIsDropped }
    ensures dropped { FlippedIsDropped }
{}
