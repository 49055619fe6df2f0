//! The laws of renumbered maps: the laws are the contract of a function whose body is empty.

ghost use Rattle.map_renumber.specs.Laws.{CanonIsOne, CanonStays};

/// Two maps that are the same up to each switch's offset, with the same host as vertex 0, have the same vertices and
/// the same cables when they are renumbered. So has a renumbered map when it is renumbered again.
pub fn renumbered_maps_are_one()
    ensures one { CanonIsOne }
    ensures stays { CanonStays }
{}
