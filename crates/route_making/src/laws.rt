//! What the routes of a map may be used for: the contract is the law, and the body is empty.

ghost use Rattle.route_making.specs.Kept.{KeptCanBeAdopted, KeptHostsAreNamed};

/// The routes of a map that is its mapper's part of the fabric may be adopted, and installed on the hosts of the map:
/// these are the mapper and those that the routes name.
pub fn routes_of_kept_maps()
    ensures adoptable { KeptCanBeAdopted }
    ensures named { KeptHostsAreNamed }
{}
