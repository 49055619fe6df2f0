//! Which routes may be adopted.

ghost use Rattle.run_laws.specs.Acts.{RightRoutesAreAdoptable};

/// The routes of a right map may be adopted.
pub fn adoptable_routes()
    ensures { RightRoutesAreAdoptable }
{}
