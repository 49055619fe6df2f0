//! The laws of path lists: each function's contract is the law, and its body is empty.

ghost use Rattle.circ_ears.specs.EarLists.{MapAtThisDepthIsCore, ReturnWalksAreShort};
ghost use Rattle.circ_ears.specs.Laws.{CorePathListsAreShort, PathsHaveReturns, PathListsAreShort, PathListsExist};
ghost use Rattle.circ_ears.specs.TwoWalks.{PathsHaveTwoWalks};

/// Any two vertices of paths that were taken one by one have two walks with no cable in common but the mapper's own.
/// So each path has a return walk.
pub fn paths_have_return_walks()
    ensures walks { PathsHaveTwoWalks }
    ensures returns { PathsHaveReturns }
{}

/// A return walk of a path list crosses at most one cable more than the list has, and so one more than the core has.
pub fn path_lists_are_short()
    ensures list { PathListsAreShort }
    ensures core { CorePathListsAreShort }
{}

/// Every host of a fabric has a path list of its core, whose return walks cross at most one cable more than the core
/// has.
pub fn path_lists_exist()
    ensures { PathListsExist }
{}

/// Where the depth is at least the most cables in a return walk of the path list that was made, the circuit map is the
/// core, up to each switch's offset.
pub fn map_at_this_depth_is_the_core()
    ensures { MapAtThisDepthIsCore }
{}

/// A return walk of the path list that was made crosses at most one cable more than the core has.
pub fn return_walks_are_short()
    ensures { ReturnWalksAreShort }
{}
