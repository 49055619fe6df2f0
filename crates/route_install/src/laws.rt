//! What comes of parts of one set: each function's contract is the law, and its body is empty.

ghost use Rattle.route_install.specs.Laws.{PartsMakeTable, ActiveOnceAllStand, EachHostHasItsParts};

/// Parts of one set make the set's table whatever their order, with repeats, and only once each has come.
pub fn parts_make_the_table()
    ensures whole { PartsMakeTable }
    ensures missing { ActiveOnceAllStand }
{}

/// An installation on the hosts of a set sends each of them as many parts as the set's table of it has.
pub fn hosts_have_their_parts()
    ensures { EachHostHasItsParts }
{}
