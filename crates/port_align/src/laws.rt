//! The laws of offsets: each function's contract is the law, and its body is empty.

ghost use Rattle.port_align.specs.Laws.{ZeroIsNeutral, EachHasItsInverse, OrderIsFree, GroupingIsFree, OwnIsZero};
ghost use Rattle.port_align.specs.Laws.{OtherWayIsInverse, OverAThirdIsSum};

/// Offsets add, with 0 and inverses, as far as sums stay from -15 to 15.
pub fn offsets_are_a_group()
    ensures zero { ZeroIsNeutral }
    ensures inverse { EachHasItsInverse }
    ensures order { OrderIsFree }
    ensures grouping { GroupingIsFree }
{}

/// Frames of one class are aligned by the group's numbers.
pub fn frames_are_aligned()
    ensures own { OwnIsZero }
    ensures other_way { OtherWayIsInverse }
    ensures over_a_third { OverAThirdIsSum }
{}
