//! What holds of the parts of worlds: each function's contract is the law, and its body is empty. `specs/Held.antt`
//! has the statements.

ghost use Rattle.faulty_links.specs.Held.{WorldHasItsPart, PartOfWorldWithPart};
ghost use Rattle.faulty_links.specs.Held.{InjectionIsPut, InjectionIsKeptOut, InjectionIsIdle};

/// A world is its part with the rest: each is had back from the other.
#[tactic(auto, using(crate::proofs::Parts::world_has_its_part, crate::proofs::Parts::part_of_world_with_part))]
pub fn parts_of_worlds()
    ensures world { WorldHasItsPart }
    ensures part { PartOfWorldWithPart }
{}

/// A host's injection into a channel is `FaultyLinks::inject` exactly where `FaultyLinks::can_inject` and no new cable
/// keeps it out, and else idle.
#[tactic(auto, using(crate::proofs::Parts::injection_is_put, crate::proofs::Parts::injection_is_kept_out, crate::proofs::Parts::injection_is_idle))]
pub fn injections_of_hosts()
    ensures put { InjectionIsPut }
    ensures kept_out { InjectionIsKeptOut }
    ensures idle { InjectionIsIdle }
{}
